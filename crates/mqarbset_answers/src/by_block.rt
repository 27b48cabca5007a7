// A place in a midamble as C holds it, and the answers about blocks over C.
ghost use Rattle.std.specs.Prelude.{◌≡◌};
ghost use Rattle.refusals.specs.Refusals.{said};
ghost use Rattle.mqarbset_answers.specs.Blocks.{place_as_held, held_as_place, start_as_c, block_as_c};

use crate::MqAnswer;
use blocks::Place;
use refusals::Refusal;

// A place in a midamble, which the caller holds: cell parameter, burst type, count and user, and how many chips are written already.
#[repr(C)]
#[derive(Clone, Copy)]
pub struct MqBlockPlace {
    pub cell: u32,
    pub burst: u32,
    pub count: u32,
    pub user: u32,
    pub written: u32,
}

// Where a midamble starts; refused, all of the place is 0.
#[repr(C)]
#[derive(Clone, Copy)]
pub struct MqBlockStart {
    pub refusal: u32,
    pub place: MqBlockPlace,
}

// How many chips were written into a block, and the place behind them; refused, the place that was handed in.
#[repr(C)]
#[derive(Clone, Copy)]
pub struct MqBlock {
    pub refusal: u32,
    pub written: u32,
    pub place: MqBlockPlace,
}

// The place that a caller holds.
impl From<MqBlockPlace> for Place {
    ghost from_gives = { λ held p. p ≡ held_as_place held };

    #[tactic(auto, unfolding(crate::specs::Blocks::held_as_place))]
    fn from(held: MqBlockPlace) -> Place {
        Place {
            cell: held.cell,
            burst: held.burst,
            count: held.count,
            user: held.user,
            written: held.written,
        }
    }
}

// A place as a caller holds it.
impl From<Place> for MqBlockPlace {
    ghost from_gives = { λ p held. held ≡ place_as_held p };

    #[tactic(auto, unfolding(crate::specs::Blocks::place_as_held))]
    fn from(p: Place) -> MqBlockPlace {
        MqBlockPlace {
            cell: p.cell,
            burst: p.burst,
            count: p.count,
            user: p.user,
            written: p.written,
        }
    }
}

// Where a midamble starts.
impl From<Result<Place, Refusal>> for MqBlockStart {
    ghost from_gives = { λ r y. y ≡ start_as_c (said r) };

    #[tactic(auto, unfolding(crate::specs::Blocks::start_as_c))]
    fn from(r: Result<Place, Refusal>) -> MqBlockStart {
        match r {
            Ok(p) => MqBlockStart {
                refusal: 0,
                place: p.into(),
            },
            Err(refusal) => MqBlockStart {
                refusal: refusal.number(),
                place: MqBlockPlace {
                    cell: 0,
                    burst: 0,
                    count: 0,
                    user: 0,
                    written: 0,
                },
            },
        }
    }
}

impl MqBlock {
    // How many chips were written, and the place that is handed back.
    #[tactic(auto, unfolding(crate::specs::Answers::answer_as_c, crate::specs::Blocks::block_as_c))]
    pub fn new(r: Result<u32, Refusal>, p: Place) -> MqBlock
        ensures { result ≡ block_as_c (said r) p }
    {
        let chips = MqAnswer::from(r);
        MqBlock {
            refusal: chips.refusal,
            written: chips.value,
            place: p.into(),
        }
    }
}
