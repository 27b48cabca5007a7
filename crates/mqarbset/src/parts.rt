// Parts of a timeslot, what lies at a chip, and beacon timeslots, over C.
ghost use Rattle.std.specs.Prelude.{◌≡◌};
ghost use Rattle.beacons.specs.Calls.{beacon_answer};
ghost use Rattle.mqarbset_answers.specs.Parts.{parts_as_c, place_as_c, beacons_as_c};
ghost use Rattle.mqarbset.specs.Calls.{parts_answer_over_c, at_answer_over_c};

use mqarbset_answers::parts::{MqBeacons, MqParts, MqPlace};

// Where the seven parts of a timeslot lie; direction 0 is up, 1 is down. Refusals: 2, 6, 7, 8; 6 also for a direction that is neither.
#[tactic(auto, using(crate::proofs::Neither::parts_over))]
pub fn mq_parts(burst: u32, direction: u32, factor: u32, tfci: u32, tpc: u32) -> MqParts
    ensures { result ≡ parts_as_c (parts_answer_over_c burst direction factor tfci tpc) }
{
    let d = mqarbset_book::read_direction(direction);
    let f = mqarbset_book::factor_beside(direction, factor);
    timeslots::parts(burst, d, f, tfci, tpc).into()
}

// What lies at a chip of a timeslot, 0 to 2559. Refusals: 2, 6, 7, 8, 10; 6 also for a direction that is neither.
#[tactic(auto, using(crate::proofs::Neither::at_over))]
pub fn mq_at(burst: u32, direction: u32, factor: u32, tfci: u32, tpc: u32, chip: u32) -> MqPlace
    ensures { result ≡ place_as_c (at_answer_over_c burst direction factor tfci tpc chip) }
{
    let d = mqarbset_book::read_direction(direction);
    let f = mqarbset_book::factor_beside(direction, factor);
    timeslots::at(burst, d, f, tfci, tpc, chip).into()
}

// The beacon timeslots of a synchronisation case and its k. Refusal: 9.
pub fn mq_beacon(case: u32, k: u32) -> MqBeacons
    ensures { result ≡ beacons_as_c (beacon_answer case k) }
{
    beacons::beacon(case, k).into()
}
