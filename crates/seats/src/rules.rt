// The refusals 16 to 18: what stands against a booking in its own seat.
ghost use Rattle.std.specs.Prelude.{◌≡◌, false, get_or};
ghost use Rattle.conditions.specs.Conditions.{bad_timeslot, bad_code};
ghost use Rattle.slots.specs.Inside.{no_slot, hits_with};
ghost use Rattle.seats.specs.Conditions.{count_for, not_permitted, off_beacon};

use bookings::Booking;
use slots::Slot;

// Of a seat's two counts the one that a burst type goes by: the short one for type 2.
#[tactic(auto, unfolding(crate::specs::Conditions::count_for))]
fn count_for(long: u8, short: u8, burst: u8) -> u8
    ensures { result ≡ count_for long short burst }
{
    if burst == 2 { short } else { long }
}

// Refusal 16.
#[tactic(auto, unfolding(crate::specs::Conditions::not_permitted))]
pub fn not_permitted(long: u8, short: u8, x: Booking) -> bool
    ensures { result ≡ not_permitted long short x }
{
    let count = count_for(long, short, x.burst);
    conditions::bad_user(u32::from(x.burst), u32::from(count), u32::from(x.user))
}

// Whether x clashes with what is kept of its timeslot. Refusal 17. No call of document 01: public for the crate book_tables, whose bookings have been tested before.
#[tactic(auto, unfolding(slots::specs::Inside::no_slot, conditions::specs::Conditions::bad_timeslot))]
pub fn clashes_there(slots: &[Slot; 15], x: Booking) -> bool
    requires { (bad_timeslot x.timeslot ≡ false) × (bad_code x.factor x.index ≡ false) }
    ensures { result ≡ hits_with (get_or slots.now x.timeslot no_slot) x }
{
    slots::hits(slots[usize::from(x.timeslot)], x)
}

// Refusal 18.
#[tactic(auto, unfolding(crate::specs::Conditions::off_beacon))]
pub fn off_beacon(case: u8, k: u8, x: Booking) -> bool
    ensures { result ≡ off_beacon case k x }
{
    beacons::is_beacon(u32::from(case), u32::from(k), u32::from(x.timeslot))
        && bookings::breaks_beacon(x)
}
