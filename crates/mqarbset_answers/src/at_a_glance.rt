// The answer of a summary, over C.
ghost use Rattle.std.specs.Prelude.{◌≡◌};
ghost use Rattle.refusals.specs.Refusals.{said};
ghost use Rattle.mqarbset_answers.specs.Summaries.{summary_as_c};

use refusals::Refusal;
use summaries::Glance;

// What a seat's bookings say of a timeslot: leaf l is bit 2^l of the leaves; direction 0 is up, 1 is down, 2 is none; and how many bookings.
#[repr(C)]
#[derive(Clone, Copy)]
pub struct MqSummary {
    pub refusal: u32,
    pub leaves: u32,
    pub direction: u32,
    pub count: u32,
}

// The summary; refused, all is 0.
impl From<Result<Glance, Refusal>> for MqSummary {
    ghost from_gives = { λ r y. y ≡ summary_as_c (said r) };

    #[tactic(auto, unfolding(crate::specs::Summaries::summary_as_c))]
    fn from(r: Result<Glance, Refusal>) -> MqSummary {
        match r {
            Ok(g) => MqSummary {
                refusal: 0,
                leaves: g.leaves as u32,
                direction: slots::way_number(g.way) as u32,
                count: g.count as u32,
            },
            Err(refusal) => MqSummary {
                refusal: refusal.number(),
                leaves: 0,
                direction: 0,
                count: 0,
            },
        }
    }
}
