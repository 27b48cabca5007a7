// Of a booking: 12 to 14 and 16 to 20.
ghost use Rattle.std.specs.Prelude.{◌≡◌, true, false, ◌&&◌, eqb, leb};
ghost use Rattle.refusals.specs.Refusals.{first_of, refusal_in};
ghost use Rattle.conditions.specs.Conditions.{bad_timeslot, bad_code};
ghost use Rattle.seats.specs.Seats.{seat_ok};
ghost use Rattle.book_tables.specs.Inside.{own_rows, booking_rows};

use crate::check_seat;
use bookings::Booking;
use refusals::Refusal;
use seats::Seat;

// Of a booking: whether the common room is used up for a seat that holds so many.
fn used_up(held: usize, used: usize) -> bool
    ensures { result ≡ (leb 10 held && eqb used 80) }
{
    (10 <= held) & (used == 80)
}

// Of a booking: what stands against it in its own seat.
#[tactic(auto, unfolding(crate::specs::Inside::own_rows, refusals::specs::Refusals::first_of, refusals::specs::Refusals::number_of))]
fn check_own(barred: bool, clash: bool, off: bool, full: bool, out: bool) -> Result<(), Refusal>
    ensures { refusal_in result ≡ first_of (own_rows barred clash off full out) }
{
    Refusal::UserOfSeat.when(barred)?;
    Refusal::Clash.when(clash)?;
    Refusal::BeaconRule.when(off)?;
    Refusal::SeatFull.when(full)?;
    Refusal::RoomUsedUp.when(out)
}

// Of a booking whose own numbers have passed: the book, the seat and its room. Public for the crate classbook, whose walk has found the seat.
#[tactic(auto, using(crate::proofs::Parts::seat_refused))]
pub fn check_booking(ok: bool, used: usize, seat: u32, s: &Seat, x: Booking) -> Result<(), Refusal>
    requires { (bad_timeslot x.timeslot ≡ false) × (bad_code x.factor x.index ≡ false) × (ok ≡ true → seat_ok s.now ≡ true) }
    ensures { refusal_in result ≡ first_of (booking_rows ok used seat s.now x) }
{
    check_seat(ok, seat, s.live)?;
    let held = s.held();
    let barred = seats::rules::not_permitted(s.long, s.short, x);
    let clash = seats::rules::clashes_there(&s.slots, x);
    let off = seats::rules::off_beacon(s.case, s.k, x);
    check_own(barred, clash, off, held == 40, used_up(held, used))
}
