// Document 01, "Beacon timeslots": which timeslots of a frame are beacon timeslots. The booking rules (a) to (f) belong to the class book.
#![tactic(auto)]

ghost use Rattle.std.specs.Prelude.{◌≡◌};
ghost use Rattle.refusals.specs.Refusals.{said_as};
ghost use Rattle.beacons.specs.Beacons.{is_beacon};
ghost use Rattle.beacons.specs.Calls.{said_beacons, beacon_answer};

use refusals::Refusal;

// The beacon timeslots of a frame: one in case 1, two in case 2.
#[derive(Clone, Copy, Debug, PartialEq, Eq)]
pub enum Beacons {
    One(u32),
    Two(u32, u32),
}

// Whether t is a beacon timeslot of case and k. The sum is taken in 64 bits, since it is asked of any numbers.
#[tactic(auto, unfolding(crate::specs::Beacons::is_beacon, crate::specs::Beacons::beacons_of, laws::specs::Lists::member))]
pub fn is_beacon(case: u32, k: u32, t: u32) -> bool
    ensures { result ≡ is_beacon case k t }
{
    ((case == 1) & (t == k)) | ((case == 2) & ((t == k) | (t as u64 == k as u64 + 8)))
}

// The beacon timeslots of a synchronisation case and its k. Refusal: 9.
#[tactic(auto, unfolding(crate::specs::Calls::beacon_refusals, crate::specs::Calls::beacon_answer, crate::specs::Beacons::beacons_of, conditions::specs::Conditions::bad_beacon, refusals::specs::Refusals::first_of, refusals::specs::Refusals::answer, refusals::specs::Refusals::number_of))]
pub fn beacon(case: u32, k: u32) -> Result<Beacons, Refusal>
    ensures { said_as said_beacons result ≡ beacon_answer case k }
{
    Refusal::Synchronisation.when(conditions::bad_beacon(case, k))?;
    if case == 1 {
        return Ok(Beacons::One(k));
    }
    Ok(Beacons::Two(k, k + 8))
}
