// What benchmarks/run measures: the sums of sixteen users, without the rest of the call. Nothing here is part of the library.
#![tactic(auto)]

ghost use Rattle.std.specs.Prelude.{◌≤◌, length};
ghost use Rattle.correlation.specs.Inside.{Samples, Signs, reach};

// The sums of users 1 to 16 of a long code, real and imaginary, into the first 32 places of `out`.
fn sixteen(re: &[f32], im: &[f32], signs: &[f32], out: &mut [f32])
    requires in_bounds { (512 ≤ length re.now) × (512 ≤ length im.now) × (reach 1 ≤ length signs.now) × (32 ≤ length out.old) }
    requires samples { Samples re.now 512 × Samples im.now 512 × Signs signs.now (reach 1) }
{
    for user in 0..16 {
        let by = codes::shift(1, user + 1) as usize;
        let s = correlation::user_sums(re, im, signs, by, 512);
        let place = 2 * user as usize;
        out[place] = s.re;
        out[place + 1] = s.im;
    }
}

// The signs of a cell's long row once; then, so many times, 512 pairs of samples turned and those sums. How many times it was; 4294967295 where the cell is above 127, one of the
// first 1,024 floats is no sample, or a row is too short.
#[unsafe(no_mangle)]
pub extern "C" fn correlating_sums(cell: u32, row: &[f32], times: u32, out: &mut [f32]) -> u32 {
    if cell > 127 {
        return u32::MAX;
    }
    if row.len() < 1024 {
        return u32::MAX;
    }
    if out.len() < 32 {
        return u32::MAX;
    }
    if samples::bad_samples(row, 1024) {
        return u32::MAX;
    }
    let mut signs = [0.0f32; 968];
    correlation::fill_signs(cell, 1, &mut signs);
    let mut re = [0.0f32; 512];
    let mut im = [0.0f32; 512];
    for _ in 0..times {
        correlation::turn(row, 512, &mut re, &mut im);
        sixteen(&re, &im, &signs, out);
    }
    times
}
