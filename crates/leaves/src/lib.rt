// The leaves that a code covers (document 01, "The class book"): how many, the first of them, and all of them as a pattern of 16 bits (document 02, C-16).
#![tactic(auto)]

ghost use Rattle.std.specs.Prelude.{◌≡◌, false, ◌-◌, ◌*◌, ◌≤◌};
ghost use Rattle.conditions.specs.Conditions.{bad_code};
ghost use Rattle.leaves.specs.Leaves.{leaves_of, covers, pattern};

// How many leaves a code of this factor covers, 16/Q, from a table: a book may hold any factor, and a division takes longer than the rest of the test.
pub fn leaves_of(factor: u8) -> u32
    ensures { (result ≡ leaves_of factor) × (result ≤ 16) }
{
    match factor {
        0 => 0,
        1 => 16,
        2 => 8,
        3 => 5,
        4 => 4,
        5 => 3,
        6 => 2,
        7 => 2,
        8 => 2,
        9 => 1,
        10 => 1,
        11 => 1,
        12 => 1,
        13 => 1,
        14 => 1,
        15 => 1,
        16 => 1,
        _ => 0,
    }
}

// The first leaf of the code with this index, where each code covers so many. Public for the crate bookings, which hands in `leaves_of`.
pub fn leaf_at(index: u8, leaves: u32) -> u32
    requires { leaves ≤ 16 }
    ensures { (result ≡ (index - 1) * leaves) × (result ≤ 4080) }
{
    if index == 0 {
        0
    } else {
        ((index - 1) as u32) * leaves
    }
}

// The pattern of a code: as many ones as it covers leaves, shifted to the first. Public for the crate slots, whose callers have tested the code before.
pub fn mask_of(factor: u8, index: u8) -> u16
    requires { bad_code factor index ≡ false }
    ensures { result ≡ pattern (covers factor index) }
{
    let n = leaves_of(factor);
    let a = leaf_at(index, n);
    let ones = (1u32 << n) - 1;
    (ones << a) as u16
}
