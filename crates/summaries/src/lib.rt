// Document 02, C-16, "Free codes at a glance": what a seat's bookings say of a timeslot, as it is kept beside them.
#![tactic(auto)]

ghost use Rattle.std.specs.Prelude.{◌≡◌};
ghost use Rattle.refusals.specs.Refusals.{said_as};
ghost use Rattle.summaries.specs.Summaries.{glance_of, glance_said, summary_answer};

use classbook::Book;
use conditions::Direction;
use refusals::Refusal;
use slots::Slot;

// The leaves that are covered, leaf l being bit 2^l; the direction of the bookings, or that there is none; and how many they are.
#[derive(Clone, Copy, Debug, PartialEq, Eq)]
pub struct Glance {
    pub leaves: u16,
    pub way: Option<Direction>,
    pub count: u8,
}

// Of what is kept, what is answered.
impl From<Slot> for Glance {
    ghost from_gives = { λ s g. g ≡ glance_of s };

    #[tactic(auto, unfolding(crate::specs::Summaries::glance_of))]
    fn from(s: Slot) -> Glance {
        Glance {
            leaves: s.leaves,
            way: s.way,
            count: s.count,
        }
    }
}

// Which codes of a timeslot a seat has free. Refusals: 5, 12, 13, 14.
#[tactic(auto, unfolding(conditions::specs::Conditions::bad_timeslot))]
pub fn summary(b: &Book, seat: u32, timeslot: u32) -> Result<Glance, Refusal>
    ensures { said_as glance_said result ≡ summary_answer b.now seat timeslot }
{
    Refusal::Timeslot.when(conditions::bad_timeslot(timeslot))?;
    let s = classbook::seat_asked(b, seat)?;
    Ok(Glance::from(s.slots[timeslot as usize]))
}
