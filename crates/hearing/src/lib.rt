// Who is on the air (document 02, C-18): of received samples, the permitted user whose midamble they hold most of, with the two sums; or nobody.
#![tactic(auto)]

ghost use Rattle.std.specs.Prelude.{◌≡◌, ◌≤◌, ◌+◌, ◌*◌, ltb, length, nat_abs};
ghost use Rattle.std.specs.Float.{binary32};
ghost use Rattle.std.specs.Float.Ieee.{of_int};
ghost use Rattle.refusals.specs.Refusals.{said_as};
ghost use Rattle.codes.specs.Codes.{code_of};
ghost use Rattle.samples.specs.Samples.{sample_of};
ghost use Rattle.correlation.specs.Inside.{Samples, Signs, reach};
ghost use Rattle.hearing.specs.Calls.{hear_answer, heard_meant};
ghost use Rattle.hearing.specs.Inside.{square, loudest_in, heard_in};

use refusals::Refusal;

// Who is heard: nobody, or a user with the real and the imaginary sum.
#[derive(Clone, Copy, Debug, PartialEq)]
pub enum Heard {
    Nobody,
    User(u32, f32, f32),
}

// The square of a sum, over whole numbers: in 64 bits, since it may have forty.
fn squared(x: f32) -> u64
    requires { (x ≡ of_int binary32 (sample_of x)) × (nat_abs (sample_of x) ≤ 1048064) }
    ensures { result ≡ square (sample_of x) }
{
    let n = x as i64;
    (n * n) as u64
}

// How strongly a user is heard: the sum of squares.
fn strength_of(re: f32, im: f32) -> u64
    requires re_value { (re ≡ of_int binary32 (sample_of re)) × (nat_abs (sample_of re) ≤ 1048064) }
    requires im_value { (im ≡ of_int binary32 (sample_of im)) × (nat_abs (sample_of im) ≤ 1048064) }
    ensures { result ≡ square (sample_of re) + square (sample_of im) }
{
    squared(re) + squared(im)
}

// Whether a user is heard better than whoever was heard best before: on a tie the lower one stays.
fn louder(best: u64, strength: u64) -> bool
    ensures { result ≡ ltb best strength }
{
    best < strength
}

// Who is heard best of the users that a count permits, from the turned samples and the signs of the row: users from 1 up.
fn best_heard(burst: u32, count: u32, re: &[f32], im: &[f32], signs: &[f32]) -> Heard
    requires burst_in_bounds { ((code_of burst).length ≤ length re.now) × ((code_of burst).length ≤ length im.now) × (reach burst ≤ length signs.now) }
    requires samples { Samples re.now (code_of burst).length × Samples im.now (code_of burst).length × Signs signs.now (reach burst) }
    ensures { heard_meant result ≡ heard_in re.now im.now signs.now burst (loudest_in re.now im.now signs.now burst count (2 * (code_of burst).base)) }
{
    let code = codes::code_of(burst);
    let chips = code.length as usize;
    let mut best = Heard::Nobody;
    let mut strength = 0;
    for user in 1..=2 * code.base {
        if codes::permits(burst, count, user) {
            let by = codes::shift(burst, user) as usize;
            let sums = correlation::user_sums(re, im, signs, by, chips);
            let found = strength_of(sums.re, sums.im);
            if louder(strength, found) {
                best = Heard::User(user, sums.re, sums.im);
                strength = found;
            }
        }
    }
    best
}

// Who is on the air in a cell, by burst type and count: of the first 1,024 (type 2: 512) floats of `row`, real then imaginary, chip after chip; further floats are not read.
// Refusals: 1, 2, 3, 11, 24.
#[tactic(auto, unfolding(crate::specs::Calls::hear_refusals, crate::specs::Calls::hear_answer, conditions::specs::Conditions::bad_cell, conditions::specs::Conditions::too_short, refusals::specs::Refusals::first_of, refusals::specs::Refusals::answer, refusals::specs::Refusals::number_of))]
pub fn hear(cell: u32, burst: u32, count: u32, row: &[f32]) -> Result<Heard, Refusal>
    ensures { said_as heard_meant result ≡ hear_answer cell burst count row.now }
{
    let chips = codes::code_of(burst).length as usize;
    let floats = 2 * chips;
    Refusal::Cell.when(conditions::bad_cell(cell))?;
    Refusal::BurstType.when(conditions::bad_type(burst))?;
    Refusal::Count.when(conditions::bad_count(burst, count))?;
    Refusal::ShortMemory.when(row.len() < floats)?;
    Refusal::Sample.when(samples::bad_samples(row, floats))?;
    let mut re = [0.0f32; 512];
    let mut im = [0.0f32; 512];
    let mut signs = [0.0f32; 968];
    correlation::turn(row, chips, &mut re, &mut im);
    correlation::fill_signs(cell, burst, &mut signs);
    Ok(best_heard(burst, count, &re, &im, &signs))
}
