// What one walk through the class book finds, and which refusal each call on the book gets from it, if any: the tables of document 01, a table a file, read row by row.
#![tactic(auto)]

mod booking;
mod cancel;
mod open;
mod seat;

ghost use Rattle.std.specs.Prelude.{◌≡◌, ◌&&◌, ◌+◌, ◌-◌, ◌≤◌};
ghost use Rattle.seats.specs.Seats.{held, seat_ok};

pub use booking::check_booking;
pub use cancel::check_cancel;
pub use open::check_open;
pub use seat::check_seat;
use seats::Seat;

// Of the seats passed: whether each meets its conditions, and what they hold beyond their first tens.
#[derive(Clone, Copy, Debug, PartialEq, Eq)]
pub struct Tally {
    pub ok: bool,
    pub used: usize,
}

// What a seat holds beyond its first ten.
fn beyond_ten(s: &Seat) -> usize
    ensures { (result ≡ held s.now - 10) × (result ≤ 30) }
{
    s.held().saturating_sub(10)
}

// One seat more is passed. Public for the crate classbook, whose walk passes sixteen.
pub fn passed(t: Tally, s: &Seat) -> Tally
    requires { t.used ≤ 450 }
    ensures { (result.ok ≡ (t.ok && seat_ok s.now)) × (result.used ≡ t.used + (held s.now - 10)) }
{
    Tally {
        ok: t.ok & seats::valid::seat_ok(s),
        used: t.used + beyond_ten(s),
    }
}
