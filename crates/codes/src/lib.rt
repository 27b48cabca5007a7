// The numbers of the two codes, how far a user's midamble is shifted (document 01, "Training sequences"), and which users a count permits (document 02, C-13).
#![tactic(auto)]

ghost use Rattle.std.specs.Prelude.{◌≡◌};
ghost use Rattle.codes.specs.Codes.{code_of, shift_of, permitted};

// One line of document 01's table: period P, base users K', step W, half step, midamble length.
#[derive(Clone, Copy)]
pub struct Code {
    pub period: u32,
    pub base: u32,
    pub step: u32,
    pub half: u32,
    pub length: u32,
}

// The code of a burst type: short for type 2, else long.
pub fn code_of(burst: u32) -> Code
    ensures { result ≡ code_of burst }
{
    if burst == 2 {
        return Code {
            period: 192,
            base: 3,
            step: 64,
            half: 32,
            length: 256,
        };
    }
    Code {
        period: 456,
        base: 8,
        step: 57,
        half: 28,
        length: 512,
    }
}

// How many elements a user's midamble is shifted, by the code of its burst type.
pub fn shift(burst: u32, user: u32) -> u32
    ensures { result ≡ shift_of (code_of burst) user }
{
    let c = code_of(burst);
    let base = c.base;
    let step = c.step;
    let half = c.half;
    if user <= base {
        return (base - user) * step;
    }
    if user < 2 * base {
        return (2 * base - user - 1) * step + half;
    }
    (base - 1) * step + half
}

// Whether a count permits a user, by the code of the burst type: all up to K = 2K', those up to K', or the odd ones up to K'.
pub fn permits(burst: u32, count: u32, user: u32) -> bool
    ensures { result ≡ permitted (code_of burst) count user }
{
    let c = code_of(burst);
    let base = c.base;
    let full = 2 * base;
    if count == full {
        return (1 <= user) & (user <= full);
    }
    if count == base {
        return (1 <= user) & (user <= base);
    }
    let odd_only = 2 * (count as u64) == base as u64;
    (1 <= user) & (odd_only & ((user <= base) & (user % 2 == 1)))
}
