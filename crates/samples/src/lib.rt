// Received samples (document 02, C-18): whether a float is one, and whether the first floats of a row all are.
#![tactic(auto)]

ghost use Rattle.std.specs.Prelude.{◌≡◌, ◌≤◌, length};
ghost use Rattle.samples.specs.Samples.{is_sample, bad_samples};

// Whether a float is a whole number from -2047 to 2047. At 12582912, 3 times 2 to the power 22, f32 has whole numbers only: of a float that is added there and taken off again,
// nothing but a fraction is lost. No part of the test branches.
fn is_sample(x: f32) -> bool
    ensures { result ≡ is_sample x }
{
    let whole = (12582912.0 + x) - 12582912.0;
    (x >= -2047.0) & ((x <= 2047.0) & (whole == x))
}

// Whether one of the first `count` floats of a row is no sample. All of them are tested before the answer, so that several can be at once.
// Public for the crates hearing and correlating, which have tested the row's length before.
pub fn bad_samples(row: &[f32], count: usize) -> bool
    requires { count ≤ length row.now }
    ensures { result ≡ bad_samples count row.now }
{
    let mut good = true;
    for &x in &row[..count] {
        good &= is_sample(x);
    }
    !good
}
