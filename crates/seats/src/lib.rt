// The class book, one seat of it (document 01, "The class book"): its settings, its row of bookings, kept sorted as it is listed and blank behind them, and what they
// say of each timeslot (document 02, C-16).
// `rules` has the refusals 16 to 18, `valid` the conditions of a seat.
#![tactic(auto)]

pub mod rules;
pub mod valid;

ghost use Rattle.std.specs.Prelude.{◌≡◌, ◌≤◌, drop};
ghost use Rattle.seats.specs.Seats.{blank, closed, opened, held, bookings};

use bookings::Booking;
use conditions::Direction;
use slots::Slot;

// A seat. Closed, its numbers are zero, its row is blank and its timeslots are without bookings.
#[derive(Clone, Copy, Debug, PartialEq, Eq)]
pub struct Seat {
    pub live: bool,
    pub cell: u8,
    pub case: u8,
    pub k: u8,
    pub long: u8,
    pub short: u8,
    pub count: u8,
    pub row: [Booking; 40],
    pub slots: [Slot; 15],
}

// A place that is not in use.
pub fn blank_booking() -> Booking
    ensures { result ≡ blank }
{
    Booking {
        timeslot: 0,
        direction: Direction::Up,
        burst: 0,
        factor: 0,
        index: 0,
        user: 0,
        tfci: 0,
        tpc: 0,
    }
}

impl Seat {
    // How many bookings it holds, whatever its count says: a row has 40 places.
    pub fn held(&self) -> usize
        ensures { (result ≡ held self.now) × (result ≤ 40) }
    {
        usize::from(self.count.min(40))
    }

    // Its bookings as listed.
    pub fn bookings(&self) -> &[Booking]
        ensures { result.now ≡ bookings self.now }
    {
        &self.row[..self.held()]
    }

    // The places behind them.
    pub fn rest(&self) -> &[Booking]
        ensures { result.now ≡ drop (held self.now) self.now.row }
    {
        &self.row[self.held()..]
    }
}

// A closed seat.
pub fn closed_seat() -> Seat
    ensures { result ≡ closed }
{
    let row = [blank_booking(); 40];
    let slots = [slots::no_slot(); 15];
    Seat {
        live: false,
        cell: 0,
        case: 0,
        k: 0,
        long: 0,
        short: 0,
        count: 0,
        row,
        slots,
    }
}

// An open seat with these settings and no bookings. Public for the crate classbook, whose call has tested the settings before.
pub fn opened_seat(cell: u32, case: u32, k: u32, long: u32, short: u32) -> Seat
    requires { (cell ≤ 255) × (case ≤ 255) × (k ≤ 255) × (long ≤ 255) × (short ≤ 255) }
    ensures { result ≡ opened cell case k long short }
{
    Seat {
        live: true,
        cell: cell as u8,
        case: case as u8,
        k: k as u8,
        long: long as u8,
        short: short as u8,
        ..closed_seat()
    }
}
