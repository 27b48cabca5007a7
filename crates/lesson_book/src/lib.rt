// The calls of a lesson that change the class book (docs/LESSONS.md), made with what a line's words stand for.
// Whether the words are those of the call is asked before, by `lesson_words::numbers::read`.
#![tactic(auto)]

ghost use Rattle.std.specs.Prelude.{◌≡◌};
ghost use Rattle.classbook.specs.Calls.{said_book};
ghost use Rattle.lesson_book.specs.Asked.{open_asked, request_of, book_asked, cancel_asked, close_asked, asked_by};

use classbook::{Book, Request};
use lesson_words::numbers;
use lesson_words::numbers::Values;
use refusals::Refusal;

// `open SEAT CELL CASE K LONG SHORT`
#[tactic(auto, unfolding(crate::specs::Asked::open_asked))]
fn opened(v: Values, b: &mut Book) -> Result<(), Refusal>
    ensures { said_book result b.new ≡ open_asked v b.old }
{
    classbook::open_seat(b, v.first, v.second, v.third, v.fourth, v.fifth, v.sixth)
}

// The request that the words behind `book SEAT` make.
fn request(v: Values) -> Request
    ensures { result ≡ request_of v }
{
    Request {
        timeslot: v.second,
        direction: numbers::direction(v.third),
        burst: v.fourth,
        factor: v.fifth,
        index: v.sixth,
        user: v.seventh,
        tfci: v.eighth,
        tpc: v.ninth,
    }
}

// `book SEAT SLOT up|down TYPE FACTOR INDEX USER TFCI TPC`
fn booked(v: Values, b: &mut Book) -> Result<(), Refusal>
    ensures { said_book result b.new ≡ book_asked v b.old }
{
    classbook::book_code(b, v.first, request(v))
}

// `cancel SEAT SLOT FACTOR INDEX`
#[tactic(auto, unfolding(crate::specs::Asked::cancel_asked))]
fn cancelled(v: Values, b: &mut Book) -> Result<(), Refusal>
    ensures { said_book result b.new ≡ cancel_asked v b.old }
{
    classbook::cancel_code(b, v.first, v.second, v.third, v.fourth)
}

// `close SEAT`
#[tactic(auto, unfolding(crate::specs::Asked::close_asked))]
fn closed(v: Values, b: &mut Book) -> Result<(), Refusal>
    ensures { said_book result b.new ≡ close_asked v b.old }
{
    classbook::close_seat(b, v.first)
}

// One of the four by its number: 0 opens, 1 books, 2 cancels, and any other closes.
pub fn asked(call: u32, v: Values, b: &mut Book) -> Result<(), Refusal>
    ensures { said_book result b.new ≡ asked_by call v b.old }
{
    match call {
        0 => opened(v, b),
        1 => booked(v, b),
        2 => cancelled(v, b),
        _ => closed(v, b),
    }
}
