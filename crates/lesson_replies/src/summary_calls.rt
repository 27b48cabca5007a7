// The call on a seat's free codes.
ghost use Rattle.std.specs.Prelude.{◌≡◌, ◌<◌, [], ◌∷◌, ◌++◌};
ghost use Rattle.refusals.specs.Refusals.{said};
ghost use Rattle.slots.specs.Slots.{way_number};
ghost use Rattle.lesson_replies.specs.Summary.{leaf_digit, leaf_digits, glance_line, summary_asked};

use crate::say;
use classbook::Book;
use conditions::Direction;
use lesson_words::numbers::Values;
use printing::{Lines, Outputs};
use refusals::Refusal;
use summaries::Glance;

// A line of the form in `summary`, with its numbers.
#[derive(Clone, Copy, Debug, PartialEq, Eq)]
pub struct SummaryLine {
    pub form: u32,
    pub numbers: [u32; 17],
}

// The digit of a leaf.
fn digit(leaves: u16, leaf: u32) -> u32
    requires { leaf < 16 }
    ensures { result ≡ leaf_digit leaves leaf }
{
    (u32::from(leaves) >> leaf) % 2
}

// The digits of all leaves, leaf 0 first, and behind them how many bookings there are.
fn numbers_of(leaves: u16, count: u32) -> [u32; 17]
    ensures { result ≡ leaf_digits leaves ++ (count ∷ []) }
{
    let mut numbers = [count; 17];
    for i in 0..16 {
        numbers[i] = digit(leaves, i as u32);
    }
    numbers
}

// The line of the form in `summary`.
#[tactic(auto, unfolding(slots::specs::Slots::way_number))]
fn turn(w: Option<Direction>) -> u32
    ensures { result ≡ way_number w }
{
    match w {
        Some(Direction::Up) => 0,
        Some(Direction::Down) => 1,
        None => 2,
    }
}

fn glanced(g: Glance) -> SummaryLine
    ensures { result ≡ glance_line g }
{
    SummaryLine {
        form: turn(g.way),
        numbers: numbers_of(g.leaves, u32::from(g.count)),
    }
}

// `summary SEAT SLOT`
fn summed(v: Values, b: &Book) -> Result<SummaryLine, Refusal>
    ensures { said result ≡ summary_asked v b.now }
{
    let g = summaries::summary(b, v.first, v.second)?;
    Ok(glanced(g))
}

pub fn summary(out: &mut Lines<'_, impl Outputs>, v: Values, b: &Book) {
    match summed(v, b) {
        Err(refusal) => say::refused(out, refusal),
        Ok(line) => out.form(
            b"summary ################ up #\n\
            summary ################ down #\n\
            summary ################ none #\n",
            line.form,
            &line.numbers,
        ),
    }
}
