// The calls for the signal card.
ghost use Rattle.std.specs.Prelude.{◌≡◌};
ghost use Rattle.refusals.specs.Refusals.{◌leaving◌, said, said_as};
ghost use Rattle.signal_card.specs.Calls.{parts_of};
ghost use Rattle.lesson_replies.specs.Replies.{pair_asked, pairs_asked};

use crate::say;
use lesson_words::numbers::Values;
use printing::{Lines, Outputs};
use refusals::Refusal;
use signal_card::ComplexChip;

// `pair CELL TYPE COUNT USER I LEVEL`
#[tactic(auto, unfolding(crate::specs::Replies::pair_asked))]
fn one(v: Values) -> Result<ComplexChip, Refusal>
    ensures { said_as parts_of result ≡ pair_asked v }
{
    signal_card::pair(v.first, v.second, v.third, v.fourth, v.fifth, v.sixth)
}

// `pairs CELL TYPE COUNT USER LEVEL`
#[tactic(auto, unfolding(crate::specs::Replies::pairs_asked))]
fn whole(v: Values, row: &mut [f32]) -> Result<u32, Refusal>
    ensures { said result leaving row.new ≡ pairs_asked v row.old }
{
    signal_card::pairs(v.first, v.second, v.third, v.fourth, v.fifth, row)
}

pub fn pair(out: &mut Lines<'_, impl Outputs>, v: Values) {
    match one(v) {
        Err(refusal) => say::refused(out, refusal),
        Ok(c) => say::wholes(out, b"pair", &[c.re, c.im], 2),
    }
}

pub fn pairs(out: &mut Lines<'_, impl Outputs>, v: Values) {
    let mut row = [0.0; 1024];
    match whole(v, &mut row) {
        Err(refusal) => say::refused(out, refusal),
        Ok(n) => say::wholes(out, b"pairs", &row, n),
    }
}
