// The samples of a line (docs/LESSONS.md, `hear`): words that are read as floats. No call of document 01: public for the crate bench.
ghost use Rattle.std.specs.Prelude.{◌≡◌, true, false, ◌≤◌, length, take, drop, MatchOption};
ghost use Rattle.lesson_words.specs.Samples.{size_of, has_minus, sample_word, float_of, are_samples, samples_of};

use crate::{numbers, words};

// How large a sample is, and whether it has a minus sign.
#[derive(Clone, Copy)]
pub struct Sample {
    pub size: u32,
    pub minus: bool,
}

impl Sample {
    // As a float, which is exact; `-0` is minus zero.
    #[tactic(auto, unfolding(crate::specs::Samples::float_of))]
    fn float(self) -> f32
        requires { self.size ≤ 999999 }
        ensures { result ≡ float_of self }
    {
        let x = self.size as f32;
        if self.minus { -x } else { x }
    }
}

// 1 to 6 digits.
fn size(digits: &[u8]) -> Option<u32>
    ensures { result ≡ size_of digits.now }
{
    if digits.len() > 6 {
        return None;
    }
    numbers::number(digits)
}

// Whether a word begins with a minus sign.
fn has_minus(word: &[u8]) -> bool
    ensures { result ≡ has_minus word.now }
{
    word.starts_with(b"-")
}

// An optional minus sign and 1 to 6 digits.
fn meant(word: &[u8]) -> Option<Sample>
    ensures { result ≡ sample_word word.now }
{
    let minus = has_minus(word);
    let digits = if minus { &word[1..] } else { word };
    let size = size(digits)?;
    Some(Sample { size, minus })
}

// Reads the words from a place on as samples, into the first places of `row`: as many as there is room for or fewer, and answers how many; `None` where they are no samples, or more.
pub fn read(text: &[u8], at: usize, row: &mut [f32]) -> Option<usize>
    requires { at ≤ length text.now }
    ensures { MatchOption result (are_samples (length row.old) (drop at text.now) ≡ false) (λ n. (are_samples (length row.old) (drop at text.now) ≡ true) × (n ≤ length row.old) × (take n row.new ≡ samples_of (length row.old) (drop at text.now))) }
{
    let mut to = at;
    for (n, place) in row.iter_mut().enumerate() {
        let w = words::word(text, to);
        let from = w.from;
        to = w.to;
        if from == to {
            return Some(n);
        }
        *place = meant(&text[from..to])?.float();
    }
    let behind = words::word(text, to);
    let further = behind.to - behind.from;
    if further != 0 {
        return None;
    }
    Some(row.len())
}
