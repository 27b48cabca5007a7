// A C caller's bytes as a book.
ghost use Rattle.std.specs.Prelude.{◌≡◌};
ghost use Rattle.mqarbset_book.specs.Mirror.{read_booking, read_way, read_slot, read_seat, broken_book, read_book};

use crate::{MqBook, MqBooking, MqSeat, MqSlot};
use bookings::Booking;
use classbook::Book;
use conditions::Direction;
use seats::Seat;
use slots::Slot;

// Byte by byte.
impl From<MqBooking> for Booking {
    ghost from_gives = { λ x y. y ≡ read_booking x };

    #[tactic(auto, unfolding(crate::specs::Mirror::read_booking))]
    fn from(x: MqBooking) -> Booking {
        Booking {
            timeslot: x.timeslot,
            direction: crate::read_direction(x.direction as u32),
            burst: x.burst,
            factor: x.factor,
            index: x.index,
            user: x.user,
            tfci: x.tfci,
            tpc: x.tpc,
        }
    }
}

// 0 is neither, 1 is up and 2 is down.
#[tactic(auto, unfolding(crate::specs::Mirror::read_way))]
fn read_way(w: u8) -> Option<Direction>
    ensures { result ≡ read_way w }
{
    match w {
        1 => Some(Direction::Up),
        2 => Some(Direction::Down),
        _ => None,
    }
}

// Byte by byte.
impl From<MqSlot> for Slot {
    ghost from_gives = { λ x y. y ≡ read_slot x };

    #[tactic(auto, unfolding(crate::specs::Mirror::read_slot))]
    fn from(x: MqSlot) -> Slot {
        Slot {
            leaves: (x.low as u16) + (x.high as u16) * 256,
            way: read_way(x.way),
            count: x.count,
            second: x.second == 1,
        }
    }
}

// Byte by byte: live 0 is closed and 1 is open.
impl From<&MqSeat> for Seat {
    ghost from_gives = { λ x y. y ≡ read_seat x.now };

    fn from(s: &MqSeat) -> Seat {
        Seat {
            live: s.live == 1,
            cell: s.cell,
            case: s.case,
            k: s.k,
            long: s.long,
            short: s.short,
            count: s.count,
            row: std::array::from_fn(|i| Booking::from(s.row[i])),
            slots: std::array::from_fn(|i| Slot::from(s.slots[i])),
        }
    }
}

// A book that breaks its conditions: a closed seat holds nothing.
#[tactic(auto, unfolding(crate::specs::Mirror::broken_book, seats::specs::Seats::closed))]
fn broken_book() -> Book
    ensures { result ≡ broken_book }
{
    let mut seat = seats::closed_seat();
    seat.count = 1;
    Book { seats: [seat; 16] }
}

// The book that the bytes say; bytes that are none of the few that they may be say one that breaks its conditions.
impl From<&MqBook> for Book {
    ghost from_gives = { λ x y. y ≡ read_book x.now };

    fn from(b: &MqBook) -> Book {
        if !b.is_proper() {
            return broken_book();
        }
        Book {
            seats: std::array::from_fn(|i| Seat::from(&b.seats[i])),
        }
    }
}
