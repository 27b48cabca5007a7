// The calls on paging bits.
ghost use Rattle.std.specs.Prelude.{◌≡◌, ◌≤◌};
ghost use Rattle.refusals.specs.Refusals.{said};
ghost use Rattle.lesson_replies.specs.Replies.{owner_asked};

use crate::replies::Reply;
use crate::say;
use lesson_words::numbers::Values;
use printing::{Lines, Outputs};
use refusals::Refusal;

pub fn indicator(v: Values) -> Result<Reply, Refusal> {
    let place = paging::indicator(v.first, v.second, v.third, v.fourth)?;
    Ok(Reply::Indicator(place))
}

pub fn owner(v: Values) -> Result<Reply, Refusal>
    ensures { said result ≡ owner_asked v }
{
    Ok(match paging::owner(v.first, v.second, v.third)? {
        None => Reply::Reserved,
        Some(q) => Reply::Owned(q),
    })
}

// The first n bytes of a row.
fn first(row: &[u8], n: usize) -> &[u8] {
    if n < row.len() { &row[..n] } else { row }
}

// Writes the digits of a row as bytes of 0 and 1, and gives back how many.
fn row_of(word: &[u8], out: &mut [u8; 1024]) -> usize {
    let n = word.len().min(1024);
    for (bit, digit) in out[..n].iter_mut().zip(word) {
        *bit = digit % 2;
    }
    n
}

// The bits of the first n settings of a row.
fn written(out: &mut Lines<'_, impl Outputs>, v: Values, row: &[u8; 1024], n: usize) {
    let mut bits = [0; 276];
    match paging::page(v.first, v.second, first(row, n), &mut bits) {
        Err(refusal) => say::refused(out, refusal),
        Ok(n) => say::digits(out, b"bits ", &bits, n),
    }
}

// The settings in the first n bits of a row.
fn heard(out: &mut Lines<'_, impl Outputs>, v: Values, row: &[u8; 1024], n: usize) {
    let mut settings = [0; 68];
    match paging::read_page(v.first, v.second, first(row, n), &mut settings) {
        Err(refusal) => say::refused(out, refusal),
        Ok(n) => say::digits(out, b"settings ", &settings, n),
    }
}

// `page` or `read`: a row of digits is the word that was read last.
pub fn row(out: &mut Lines<'_, impl Outputs>, reading: bool, v: Values, word: &[u8]) {
    let mut row = [0; 1024];
    let n = row_of(word, &mut row);
    if reading {
        heard(out, v, &row, n);
    } else {
        written(out, v, &row, n);
    }
}
