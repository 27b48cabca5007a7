// A book as bytes for a C caller.
ghost use Rattle.std.specs.Prelude.{◌≡◌};
ghost use Rattle.mqarbset_book.specs.Mirror.{write_booking, write_way, write_slot, write_seat, write_book};

use crate::{MqBook, MqBooking, MqSeat, MqSlot};
use bookings::Booking;
use classbook::Book;
use conditions::Direction;
use seats::Seat;
use slots::Slot;

// Byte by byte.
impl From<Booking> for MqBooking {
    ghost from_gives = { λ x y. y ≡ write_booking x };

    #[tactic(auto, unfolding(crate::specs::Mirror::write_booking), using(crate::proofs::Flags::down_byte))]
    fn from(x: Booking) -> MqBooking {
        MqBooking {
            timeslot: x.timeslot,
            direction: x.direction.is_down() as u8,
            burst: x.burst,
            factor: x.factor,
            index: x.index,
            user: x.user,
            tfci: x.tfci,
            tpc: x.tpc,
        }
    }
}

// 0 is neither, 1 is up and 2 is down.
#[tactic(auto, unfolding(crate::specs::Mirror::write_way))]
fn write_way(w: Option<Direction>) -> u8
    ensures { result ≡ write_way w }
{
    match w {
        None => 0,
        Some(Direction::Up) => 1,
        Some(Direction::Down) => 2,
    }
}

// Byte by byte.
impl From<Slot> for MqSlot {
    ghost from_gives = { λ x y. y ≡ write_slot x };

    #[tactic(auto, unfolding(crate::specs::Mirror::write_slot), using(crate::proofs::Flags::flag_byte))]
    fn from(x: Slot) -> MqSlot {
        MqSlot {
            low: (x.leaves % 256) as u8,
            high: (x.leaves / 256) as u8,
            way: write_way(x.way),
            count: x.count,
            second: x.second as u8,
        }
    }
}

// Byte by byte: closed is 0 and open is 1.
impl From<&Seat> for MqSeat {
    ghost from_gives = { λ x y. y ≡ write_seat x.now };

    fn from(s: &Seat) -> MqSeat {
        MqSeat {
            live: s.live as u8,
            cell: s.cell,
            case: s.case,
            k: s.k,
            long: s.long,
            short: s.short,
            count: s.count,
            row: std::array::from_fn(|i| MqBooking::from(s.row[i])),
            slots: std::array::from_fn(|i| MqSlot::from(s.slots[i])),
        }
    }
}

// Seat by seat.
impl From<&Book> for MqBook {
    ghost from_gives = { λ x y. y ≡ write_book x.now };

    fn from(b: &Book) -> MqBook {
        MqBook {
            seats: std::array::from_fn(|i| MqSeat::from(&b.seats[i])),
        }
    }
}
