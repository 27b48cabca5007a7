// A user's two sums (document 02, C-18): each received sample times the conjugate of the user's chip, added in f32, where every step is exact.
// A chip is a power of j with a sign. The samples are turned back by their powers of j once, for all users; then a user's sums are the turned samples added with the signs of the row,
// as far on as the user is shifted, and turned back by that shift.
// Public for the crate hearing, whose call has tested the cell and the samples before, and for correlating, which measures them.
#![tactic(auto)]

ghost use Rattle.std.specs.Prelude.{◌≡◌, ℕ, ◌≤◌, ◌<◌, ◌+◌, ◌-◌, ◌*◌, ◌%◌, ◌^◌, length, get_or, ◌+ℤ◌};
ghost use Rattle.std.specs.Float.{nan, binary32};
ghost use Rattle.std.specs.Float.Ieee.{of_int};
ghost use Rattle.sums.specs.Totals.{total};
ghost use Rattle.samples.specs.Samples.{sample_of};
ghost use Rattle.correlation.specs.Inside.{turned_back, sums_of, Samples, Signs, Wholes, dot_of, Turned, sign_from, reach, HoldsSigns};

// The real and the imaginary sum of a user.
#[derive(Clone, Copy, Debug, PartialEq)]
pub struct Sums {
    pub re: f32,
    pub im: f32,
}

// To each of the first `half` columns the one that stands `half` places further on is added.
fn halve(half: usize, columns: &mut [f32])
    requires { (2 * half ≤ length columns.old) × (half ≤ 16) × Wholes columns.old (2 * half) (2 ^ 23) }
    ensures { (k : ℕ) → k < half → get_or columns.new k nan ≡ of_int binary32 (sample_of (get_or columns.old k nan) +ℤ sample_of (get_or columns.old (k + half) nan)) }
{
    for k in 0..half {
        columns[k] += columns[k + half];
    }
}

// The sum of 32 columns, by halves.
fn joined(columns: &mut [f32]) -> f32
    requires { (32 ≤ length columns.old) × Wholes columns.old 32 (2 ^ 18) }
    ensures { result ≡ of_int binary32 (total (λ (l : ℕ). sample_of (get_or columns.old (l - 1) nan)) 32) }
{
    halve(16, columns);
    halve(8, columns);
    halve(4, columns);
    halve(2, columns);
    columns[0] + columns[1]
}

// The sums of the first `count` floats of x and of those of y, each float times the sign that stands `by` places further on in b, which is read once for both: in 32 columns each, of
// which several are added at once.
fn dots(x: &[f32], y: &[f32], b: &[f32], by: usize, count: usize) -> Sums
    requires count_bound { (count ≤ 512) × (count % 32 ≡ 0) × (by ≤ 480) }
    requires count_in_bounds { (count ≤ length x.now) × (count ≤ length y.now) × (by + count ≤ length b.now) }
    requires samples { Samples x.now count × Samples y.now count × Signs b.now (by + count) }
    ensures { result ≡ sums_of (dot_of x.now b.now by count, dot_of y.now b.now by count) }
{
    let mut real = [0.0f32; 32];
    let mut imaginary = [0.0f32; 32];
    for t in 0..count / 32 {
        let m = 32 * t;
        for l in 0..32 {
            let sign = b[by + m + l];
            real[l] += x[m + l] * sign;
            imaginary[l] += y[m + l] * sign;
        }
    }
    let re = joined(&mut real);
    let im = joined(&mut imaginary);
    Sums { re, im }
}

// A user's two sums, from the turned samples and the signs of the row: turned back as far as the user is shifted.
pub fn user_sums(re: &[f32], im: &[f32], signs: &[f32], by: usize, count: usize) -> Sums
    requires count_bound { (count ≤ 512) × (count % 32 ≡ 0) × (by ≤ 480) }
    requires count_in_bounds { (count ≤ length re.now) × (count ≤ length im.now) × (by + count ≤ length signs.now) }
    requires samples { Samples re.now count × Samples im.now count × Signs signs.now (by + count) }
    ensures { result ≡ sums_of (turned_back by (dot_of re.now signs.now by count, dot_of im.now signs.now by count)) }
{
    let sums = dots(re, im, signs, by, count);
    let (a, b) = (sums.re, sums.im);
    match by % 4 {
        0 => Sums { re: a, im: b },
        1 => Sums { re: b, im: 0.0 - a },
        2 => Sums {
            re: 0.0 - a,
            im: 0.0 - b,
        },
        _ => Sums { re: 0.0 - b, im: a },
    }
}

// The first `count` samples of a row, each turned back by j to the power of its place, from 1: the real parts into `re`, the imaginary parts into `im`. Four are read before they are
// written, so that they can be turned at once.
pub fn turn(row: &[f32], count: usize, re: &mut [f32], im: &mut [f32])
    requires count_bound { (count ≤ 512) × (count % 4 ≡ 0) × (count ≤ length re.old) × (count ≤ length im.old) }
    requires count_in_bounds { (2 * count ≤ length row.now) × Samples row.now (2 * count) }
    ensures { Turned row.now count re.new im.new }
{
    for q in 0..count / 4 {
        let i = 4 * q;
        let k = 2 * i;
        let a = row[k];
        let b = row[k + 1];
        let c = row[k + 2];
        let d = row[k + 3];
        let e = row[k + 4];
        let f = row[k + 5];
        let g = row[k + 6];
        let h = row[k + 7];
        re[i] = b;
        re[i + 1] = -c;
        re[i + 2] = -f;
        re[i + 3] = g;
        im[i] = -a;
        im[i + 1] = -d;
        im[i + 2] = e;
        im[i + 3] = h;
    }
}

// The signs of the first `count` elements, from their powers of j: 1 less how far an element's power is past that of its place, counted from 1, which is 0 or 2.
fn signs_of(powers: &[u8], count: usize, out: &mut [f32])
    requires count_in_bounds { (count ≤ length powers.now) × (count ≤ length out.old) }
    requires by_index { (k : ℕ) → k < count → get_or powers.now k 0 < 4 }
    ensures { (m : ℕ) → m < count → get_or out.new m nan ≡ sign_from ((m + 1) % 4) (get_or powers.now m 0) }
{
    for i in 0..count {
        let place = ((i + 1) % 4) as u32;
        let past = (powers[i] as u32 + 4 - place) % 4;
        out[i] = 1.0 - past as f32;
    }
}

// What stands in the first `period` places, again and again up to place `count`.
fn repeat(period: usize, count: usize, out: &mut [f32])
    requires { (1 ≤ period) × (period ≤ count) × (count ≤ length out.old) }
    ensures { (m : ℕ) → m < count → get_or out.new m nan ≡ get_or out.old (m % period) nan }
{
    for i in period..count {
        out[i] = out[i - period];
    }
}

// The signs of a cell's row, as many as its users' midambles read, the row repeated behind its period.
pub fn fill_signs(cell: u32, burst: u32, out: &mut [f32])
    requires { (cell < 128) × (reach burst ≤ length out.old) }
    ensures { HoldsSigns cell burst (reach burst) out.new }
{
    let code = codes::code_of(burst);
    let period = code.period as usize;
    let count = period + code.length as usize;
    let mut powers = [0u8; 512];
    elements::fill_elements(cell, burst, 0, period, &mut powers);
    signs_of(&powers, period, out);
    repeat(period, count, out);
}
