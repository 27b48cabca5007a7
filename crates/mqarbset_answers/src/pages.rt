// The answers about paging bits over C.
ghost use Rattle.std.specs.Prelude.{◌≡◌};
ghost use Rattle.refusals.specs.Refusals.{said_as};
ghost use Rattle.paging.specs.Calls.{said_place, said_owner};
ghost use Rattle.mqarbset_answers.specs.Pages.{indicator_as_c, owner_as_c};

use paging::IndicatorPlace;
use refusals::Refusal;

// Where an indicator sits: its frame, its number q there, and `length` carrying bits from `first` and from `second`.
#[repr(C)]
#[derive(Clone, Copy)]
pub struct MqIndicator {
    pub refusal: u32,
    pub frame: u32,
    pub q: u32,
    pub first: u32,
    pub second: u32,
    pub length: u32,
}

// Who owns a paging bit: it is reserved (1), or it belongs to indicator q (0).
#[repr(C)]
#[derive(Clone, Copy)]
pub struct MqOwner {
    pub refusal: u32,
    pub reserved: u32,
    pub q: u32,
}

// Where an indicator sits.
impl From<Result<IndicatorPlace, Refusal>> for MqIndicator {
    ghost from_gives = { λ r y. y ≡ indicator_as_c (said_as said_place r) };

    #[tactic(auto, unfolding(crate::specs::Pages::indicator_as_c))]
    fn from(r: Result<IndicatorPlace, Refusal>) -> MqIndicator {
        match r {
            Ok(x) => MqIndicator {
                refusal: 0,
                frame: x.frame,
                q: x.q,
                first: x.first,
                second: x.second,
                length: x.length,
            },
            Err(refusal) => MqIndicator {
                refusal: refusal.number(),
                frame: 0,
                q: 0,
                first: 0,
                second: 0,
                length: 0,
            },
        }
    }
}

// Who owns a bit.
impl From<Result<Option<u32>, Refusal>> for MqOwner {
    ghost from_gives = { λ r y. y ≡ owner_as_c (said_as said_owner r) };

    #[tactic(auto, unfolding(crate::specs::Pages::owner_as_c))]
    fn from(r: Result<Option<u32>, Refusal>) -> MqOwner {
        match r {
            Ok(Some(q)) => MqOwner {
                refusal: 0,
                reserved: 0,
                q,
            },
            Ok(None) => MqOwner {
                refusal: 0,
                reserved: 1,
                q: 0,
            },
            Err(refusal) => MqOwner {
                refusal: refusal.number(),
                reserved: 0,
                q: 0,
            },
        }
    }
}
