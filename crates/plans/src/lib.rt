// The class book, what a booking and a cancelling make of a seat: its row moves up or down behind the place, and its timeslot says what it holds then. No calls of
// document 01: public for the crate classbook, whose calls have tested before what is required here.
#![tactic(auto)]

ghost use Rattle.std.specs.Prelude.{◌≡◌, true, false, cond, not, ◌++◌, ◌∷◌, [], ◌≤◌, ◌<◌, eqb, take, length, is_none};
ghost use Rattle.std.specs.Option.{unwrap_or};
ghost use Rattle.laws.specs.Lists.{every, insert_at, remove_at};
ghost use Rattle.conditions.specs.Conditions.{bad_timeslot, bad_code};
ghost use Rattle.slots.specs.Slots.{slot_of};
ghost use Rattle.slots.specs.Inside.{joined_with};
ghost use Rattle.seats.specs.Seats.{held, bookings, seat_ok, rank, insert, names, with_plan};
ghost use Rattle.plans.specs.Inside.{place_named};

use bookings::Booking;
use seats::Seat;
use slots::Slot;

// How many of a list come before x.
fn place_of(list: &[Booking], x: Booking) -> usize
    ensures { result ≡ rank x list.now }
{
    list.iter()
        .filter(|y| bookings::comes_before(**y, x))
        .count()
}

// Puts x into the row at a place; the last one falls off.
fn put_in(row: &mut [Booking; 40], p: usize, x: Booking)
    requires { p < 40 }
    ensures moved { row.new ≡ take 40 (insert_at p x row.old) }
    ensures wide { length row.old ≡ 40 }
{
    row.copy_within(p..39, p + 1);
    row[p] = x;
}

// Gives the seat one booking more, in its place. Public for the crate classbook.
pub fn with_booking(s: &mut Seat, x: Booking)
    requires { (seat_ok s.old ≡ true) × (held s.old < 40) × (bad_timeslot x.timeslot ≡ false) × (bad_code x.factor x.index ≡ false) }
    ensures { s.new ≡ with_plan s.old (insert x (bookings s.old)) }
{
    let p = place_of(s.bookings(), x);
    put_in(&mut s.row, p, x);
    let t = x.timeslot as usize;
    s.slots[t] = slots::joined(s.slots[t], x);
    s.count += 1;
}

#[tactic(auto, unfolding(seats::specs::Seats::names))]
fn is_named(y: Booking, timeslot: u32, factor: u32, index: u32) -> bool
    ensures { result ≡ names timeslot factor index y }
{
    (u32::from(y.timeslot) == timeslot)
        & ((u32::from(y.factor) == factor) & (u32::from(y.index) == index))
}

// The place in a list of the booking that is named by timeslot and code, where there is one. Public for the crate classbook.
pub fn place_named(list: &[Booking], timeslot: u32, factor: u32, index: u32) -> Option<usize>
    ensures place { unwrap_or result (length list.now) ≡ place_named timeslot factor index list.now }
    ensures none { is_none result ≡ every (λ y. not (names timeslot factor index y)) list.now }
{
    list.iter()
        .position(|y| is_named(*y, timeslot, factor, index))
}

// Takes the one at a place out of the row; a blank one comes in at the end.
fn take_out(row: &mut [Booking; 40], p: usize, blank: Booking)
    requires { p < 40 }
    ensures moved { row.new ≡ remove_at p (row.old ++ blank ∷ []) }
    ensures wide { length row.old ≡ 40 }
{
    row.copy_within(p + 1.., p);
    row[39] = blank;
}

// A timeslot with one booking more, if it is one of its own.
fn joined_own(s: Slot, timeslot: u8, x: Booking) -> Slot
    requires { (bad_code x.factor x.index ≡ false) × (s.count < 255) }
    ensures { result ≡ cond (eqb x.timeslot timeslot) (joined_with s x) s }
{
    if x.timeslot == timeslot {
        return slots::joined(s, x);
    }
    s
}

// What a list says of a timeslot: each of its bookings joins those before it.
fn slot_of(list: &[Booking], timeslot: u8) -> Slot
    requires { (length list.now ≤ 40) × (every (λ x. not (bad_code x.factor x.index)) list.now ≡ true) }
    ensures { result ≡ slot_of timeslot list.now }
{
    let mut made = slots::no_slot();
    for &x in list {
        made = joined_own(made, timeslot, x);
    }
    made
}

// Takes from the seat the booking at a place that is in use. What is left of its timeslot is summed again from the bookings that stay. Public for the crate classbook.
pub fn without_at(s: &mut Seat, p: usize)
    requires { (seat_ok s.old ≡ true) × (p < held s.old) }
    ensures { s.new ≡ with_plan s.old (remove_at p (bookings s.old)) }
{
    let t = s.row[p].timeslot;
    take_out(&mut s.row, p, seats::blank_booking());
    s.count -= 1;
    let fewer = slot_of(s.bookings(), t);
    s.slots[t as usize] = fewer;
}
