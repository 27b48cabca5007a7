// Chips for the signal card (document 02, C-12): any chip of any user as two f32 numbers at a chosen level, and a whole midamble into a lent row of them.
#![tactic(auto, unfolding(crate::specs::Inside::chip_in))]

ghost use Rattle.std.specs.Prelude.{◌≡◌, ◌++◌, [], ◌∷◌, ℕ, ◌*◌, ◌<◌, ◌≤◌, length, take, drop, get_or};
ghost use Rattle.refusals.specs.Refusals.{◌leaving◌, said, said_as};
ghost use Rattle.signal_card.specs.SignalCard.{floats_of};
ghost use Rattle.signal_card.specs.Calls.{parts_of, pair_answer, pairs_outcome};
ghost use Rattle.signal_card.specs.Inside.{chip_in};

use refusals::Refusal;

// One complex chip at a level: its real part and its imaginary part.
#[derive(Clone, Copy, Debug, PartialEq)]
pub struct ComplexChip {
    pub re: f32,
    pub im: f32,
}

// The chips of powers 0, 1, 2 and 3 at a level: (a, 0), (0, a), (-a, 0), (0, -a), with plain zero.
fn four_chips(level: u32) -> [f32; 8]
    requires { (1 ≤ level) × (level ≤ 2047) }
    ensures { result ≡ floats_of level (0 ∷ 1 ∷ 2 ∷ 3 ∷ []) }
{
    let a = level as f32;
    let minus = -a;
    [a, 0.0, 0.0, a, minus, 0.0, 0.0, minus]
}

// The chip of a power of j, out of those four.
fn chip_of(four: &[f32; 8], power: u8) -> ComplexChip
    requires { power < 4 }
    ensures { result ≡ chip_in four.now power }
{
    let p = 2 * power as usize;
    ComplexChip {
        re: four[p],
        im: four[p + 1],
    }
}

// These chips at a level, into the first places of `out`: real then imaginary, chip after chip.
fn fill(chips: &[u8], level: u32, out: &mut [f32])
    requires le_level { (1 ≤ level) × (level ≤ 2047) }
    requires room { (length chips.now ≤ 512) × (2 * length chips.now ≤ length out.old) }
    requires powers { (k : ℕ) → k < length chips.now → get_or chips.now k 0 < 4 }
    ensures { out.new ≡ floats_of level chips.now ++ drop (2 * length chips.now) out.old }
{
    let four = four_chips(level);
    for (k, &power) in chips.iter().enumerate() {
        let c = chip_of(&four, power);
        out[2 * k] = c.re;
        out[2 * k + 1] = c.im;
    }
}

// Chip `chip` (from 1) of a user's midamble at a level, as a pair. Refusals: 1, 2, 3, 4, 10, 22.
#[tactic(auto, using(crate::proofs::Answers::pair_steps), unfolding(crate::specs::Calls::pair_refusals, crate::specs::Calls::pair_answer, conditions::specs::Conditions::bad_level, refusals::specs::Refusals::first_of, refusals::specs::Refusals::answer, refusals::specs::Refusals::number_of))]
pub fn pair(
    cell: u32,
    burst: u32,
    count: u32,
    user: u32,
    chip: u32,
    level: u32,
) -> Result<ComplexChip, Refusal>
    ensures { said_as parts_of result ≡ pair_answer cell burst count user chip level }
{
    let power = midambles::midamble_chip(cell, burst, count, user, chip)?;
    let bad = conditions::bad_level(level);
    Refusal::Level.when(bad)?;
    let four = four_chips(level);
    Ok(chip_of(&four, power))
}

// All chips of a user's midamble at a level, into the first 1,024 (type 2: 512) floats of `out`; further floats stay as they are. How many were written. Refusals: 1, 2, 3, 4, 11, 22.
#[tactic(auto, using(midambles::proofs::Answers::user_steps, crate::proofs::Answers::run_room), unfolding(crate::specs::Calls::pairs_refusals, crate::specs::Calls::pairs_outcome, conditions::specs::Conditions::too_short, conditions::specs::Conditions::bad_level, refusals::specs::Refusals::first_of, refusals::specs::Refusals::answer, refusals::specs::Refusals::after, refusals::specs::Refusals::number_of))]
pub fn pairs(
    cell: u32,
    burst: u32,
    count: u32,
    user: u32,
    level: u32,
    out: &mut [f32],
) -> Result<u32, Refusal>
    ensures { said result leaving out.new ≡ pairs_outcome cell burst count user level out.old }
{
    let length = codes::code_of(burst).length;
    let floats = 2 * length;
    tables::check_user(cell, burst, count, user)?;
    Refusal::ShortMemory.when(out.len() < floats as usize)?;
    Refusal::Level.when(conditions::bad_level(level))?;
    let mut chips = [0u8; 512];
    let by = codes::shift(burst, user);
    elements::fill_chips(cell, burst, by, &mut chips);
    fill(&chips[..length as usize], level, out);
    Ok(floats)
}
