// Document 01, "Paging bits (clause 5.3.7)": the bits of one frame in time order, written and read. Nothing here is a call of document 01: `fill` and `scan` are public for the
// crate `paging`, whose calls have tested what they require.
#![tactic(auto)]

ghost use Rattle.std.specs.Prelude.{◌≡◌, ◌++◌, ◌+◌, ◌*◌, ◌≤◌, length, drop};
ghost use Rattle.paging_bits.specs.Bits.{bits_in, as_bit, runs_of, burst_of, ones_from, heard, readings_of};
ghost use Rattle.paging_bits.specs.Inside.{Fits, Holds};

// What is written at a reserved bit.
const RESERVED: u8 = 0;

// A byte as a bit: 0 is 0, any other 1.
#[tactic(auto, unfolding(crate::specs::Bits::as_bit))]
fn as_bit(v: u8) -> u8
    ensures { result ≡ as_bit v }
{
    u8::from(v != 0)
}

// A run for each of `per` settings, one behind the other, into the first places of `out`.
fn put_runs(length: usize, per: usize, settings: &[u8], out: &mut [u8])
    requires { Holds settings.now per × Holds out.old (per * length) }
    ensures { out.new ≡ runs_of length settings.now per ++ drop (per * length) out.old }
{
    for (q, setting) in settings[..per].iter().enumerate() {
        let from = q * length;
        out[from..from + length].fill(as_bit(*setting));
    }
}

// All bits of a frame with these settings, in time order, into the first places of `out`: the first half, the reserved four, and the second half, which is as the first.
// Public for the crate paging.
pub fn fill(length: usize, per: usize, half: usize, settings: &[u8], out: &mut [u8])
    requires { Fits length per half × Holds settings.now per × Holds out.old (bits_in half) }
    ensures { out.new ≡ burst_of length per settings.now ++ drop (bits_in half) out.old }
{
    put_runs(length, per, settings, out);
    out[half..half + 4].fill(RESERVED);
    out.copy_within(..half, half + 4);
}

// How many bits of two runs of one length are 1. Both in one loop: a run has few bits, and a loop for each costs more than its turns.
fn ones(one: &[u8], other: &[u8]) -> u32
    requires { (length one.now ≤ 255) × (length other.now ≡ length one.now) }
    ensures { result ≡ ones_from one.now 0 (length one.now) + ones_from other.now 0 (length one.now) }
{
    let mut sum = 0;
    for (j, bit) in one.iter().enumerate() {
        sum += u32::from(as_bit(*bit) + as_bit(other[j]));
    }
    sum
}

// What a number of ones among so many bits says: off, on, or torn.
#[tactic(auto, unfolding(crate::specs::Bits::heard))]
fn reading(ones: u32, count: u32) -> u8
    ensures { result ≡ heard ones count }
{
    if ones == 0 {
        return 0;
    }
    if ones == count {
        return 1;
    }
    2
}

// The readings of all indicators, into the first places of `out`: each one's run in the first half and its run in the second. Public for the
// crate paging.
pub fn scan(length: usize, per: usize, half: usize, bits: &[u8], out: &mut [u8])
    requires { Fits length per half × Holds bits.now (bits_in half) × Holds out.old per }
    ensures { out.new ≡ readings_of length per half bits.now ++ drop per out.old }
{
    for q in 0..per {
        let first = q * length;
        let second = half + 4 + first;
        let ones = ones(&bits[first..first + length], &bits[second..second + length]);
        out[q] = reading(ones, 2 * length as u32);
    }
}
