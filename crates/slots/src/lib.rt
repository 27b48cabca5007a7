// What a seat's bookings say of one timeslot (document 02, C-16), kept beside them: which leaves are covered, which direction, how many, and whether they are type 2.
// A booking is tested against it, and joins it, by the mask of its code.
#![tactic(auto, unfolding(crate::specs::Inside::no_slot, crate::specs::Inside::way_with, crate::specs::Inside::joined_with, crate::specs::Inside::turns_from, crate::specs::Inside::hits_with, crate::specs::Slots::way_number, conditions::specs::Conditions::is_down))]

ghost use Rattle.std.specs.Prelude.{◌≡◌, false, not, ◌<◌, eqb};
ghost use Rattle.std.specs.Int.Bits.{bit_and};
ghost use Rattle.conditions.specs.Conditions.{bad_code};
ghost use Rattle.slots.specs.Slots.{way_number, same_slot};
ghost use Rattle.slots.specs.Inside.{no_slot, mask, way_with, joined_with, turns_from, hits_with};

use bookings::Booking;
use conditions::Direction;

// One timeslot of a seat. Leaf l is bit 2^l of the pattern; the way is the direction of its bookings, where it has any.
#[derive(Clone, Copy, Debug, PartialEq, Eq)]
pub struct Slot {
    pub leaves: u16,
    pub way: Option<Direction>,
    pub count: u8,
    pub second: bool,
}

// A timeslot without bookings.
pub fn no_slot() -> Slot
    ensures { result ≡ no_slot }
{
    Slot {
        leaves: 0,
        way: None,
        count: 0,
        second: false,
    }
}

// The way of a timeslot that gets one booking more.
fn way_with(w: Option<Direction>, d: Direction) -> Option<Direction>
    ensures { result ≡ way_with w d }
{
    if d.is_down() { Some(d) } else { w.or(Some(d)) }
}

// A timeslot with one booking more. Public for the crates seats and plans, whose bookings have been tested before.
pub fn joined(s: Slot, x: Booking) -> Slot
    requires { (bad_code x.factor x.index ≡ false) × (s.count < 255) }
    ensures { result ≡ joined_with s x }
{
    Slot {
        leaves: s.leaves | leaves::mask_of(x.factor, x.index),
        way: way_with(s.way, x.direction),
        count: s.count + 1,
        second: s.second | (x.burst == 2),
    }
}

// Whether a direction is another than that of the bookings there.
fn turns_from(w: Option<Direction>, d: Direction) -> bool
    ensures { result ≡ turns_from w d }
{
    match w {
        Some(there) => there != d,
        None => false,
    }
}

// Whether two patterns share a leaf.
fn shares(a: u16, b: u16) -> bool
    ensures { result ≡ not (eqb (bit_and a b) 0) }
{
    a & b != 0
}

// Whether a booking clashes with those of its timeslot. Public for the crate seats, whose bookings have been tested before.
pub fn hits(s: Slot, x: Booking) -> bool
    requires { bad_code x.factor x.index ≡ false }
    ensures { result ≡ hits_with s x }
{
    let over = shares(s.leaves, leaves::mask_of(x.factor, x.index));
    let turn = turns_from(s.way, x.direction);
    let mix = !(s.count == 0) & (s.second ^ (x.burst == 2));
    over | (turn | mix)
}

// The way as a number: 0 up, 1 down, 2 neither.
pub fn way_number(w: Option<Direction>) -> u8
    ensures { result ≡ way_number w }
{
    match w {
        Some(Direction::Up) => 0,
        Some(Direction::Down) => 1,
        None => 2,
    }
}

// Whether two say the same.
pub fn same_slot(a: Slot, b: Slot) -> bool
    ensures { result ≡ same_slot a b }
{
    a == b
}
