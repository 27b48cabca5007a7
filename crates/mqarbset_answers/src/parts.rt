// The answers about parts of a timeslot, what lies at a chip, and beacon timeslots, over C.
ghost use Rattle.std.specs.Prelude.{◌≡◌};
ghost use Rattle.refusals.specs.Refusals.{said_as};
ghost use Rattle.timeslots.specs.Calls.{said_layout, said_lying};
ghost use Rattle.beacons.specs.Calls.{said_beacons};
ghost use Rattle.mqarbset_answers.specs.Parts.{parts_as_c, place_as_c, beacons_as_c};

use beacons::Beacons;
use refusals::Refusal;
use timeslots::{Layout, Lying, Symbol};

// The seven parts in time order: data 1, first half of TFCI, midamble, TPC, second half of TFCI, data 2, guard; and the bits of both data parts.
#[repr(C)]
#[derive(Clone, Copy)]
pub struct MqParts {
    pub refusal: u32,
    pub start: [u32; 7],
    pub length: [u32; 7],
    pub bits: [u32; 2],
}

// What lies at a chip: the part, 1 to 7 in time order, and the symbol number in it (midamble and guard: the offset), from 0.
#[repr(C)]
#[derive(Clone, Copy)]
pub struct MqPlace {
    pub refusal: u32,
    pub part: u32,
    pub number: u32,
}

// The beacon timeslots of a frame: how many, and which.
#[repr(C)]
#[derive(Clone, Copy)]
pub struct MqBeacons {
    pub refusal: u32,
    pub count: u32,
    pub first: u32,
    pub second: u32,
}

// Where the seven parts lie; refused, all is 0.
impl From<Result<Layout, Refusal>> for MqParts {
    ghost from_gives = { λ r y. y ≡ parts_as_c (said_as said_layout r) };

    #[tactic(auto, unfolding(crate::specs::Parts::parts_as_c, timeslots::specs::Calls::said_layout))]
    fn from(r: Result<Layout, Refusal>) -> MqParts {
        match r {
            Ok(l) => MqParts {
                refusal: 0,
                start: [
                    l.data1.start,
                    l.tfci1.start,
                    l.midamble.start,
                    l.tpc.start,
                    l.tfci2.start,
                    l.data2.start,
                    l.guard.start,
                ],
                length: [
                    l.data1.length,
                    l.tfci1.length,
                    l.midamble.length,
                    l.tpc.length,
                    l.tfci2.length,
                    l.data2.length,
                    l.guard.length,
                ],
                bits: [l.bits1, l.bits2],
            },
            Err(refusal) => MqParts {
                refusal: refusal.number(),
                start: [0; 7],
                length: [0; 7],
                bits: [0; 2],
            },
        }
    }
}

// What lies at a chip: the parts by their place in time order, from 1.
impl From<Result<Lying, Refusal>> for MqPlace {
    ghost from_gives = { λ r y. y ≡ place_as_c (said_as said_lying r) };

    #[tactic(auto, unfolding(crate::specs::Parts::place_as_c, crate::specs::Parts::part_number))]
    fn from(r: Result<Lying, Refusal>) -> MqPlace {
        let (refusal, part, number) = match r {
            Ok(Lying::Symbol(Symbol::Data1(n))) => (0, 1, n),
            Ok(Lying::Symbol(Symbol::Tfci1(n))) => (0, 2, n),
            Ok(Lying::Midamble(n)) => (0, 3, n),
            Ok(Lying::Symbol(Symbol::Tpc(n))) => (0, 4, n),
            Ok(Lying::Symbol(Symbol::Tfci2(n))) => (0, 5, n),
            Ok(Lying::Symbol(Symbol::Data2(n))) => (0, 6, n),
            Ok(Lying::Guard(n)) => (0, 7, n),
            Err(refusal) => (refusal.number(), 0, 0),
        };
        MqPlace {
            refusal,
            part,
            number,
        }
    }
}

// The beacon timeslots; what is not there is 0.
impl From<Result<Beacons, Refusal>> for MqBeacons {
    ghost from_gives = { λ r y. y ≡ beacons_as_c (said_as said_beacons r) };

    #[tactic(auto, unfolding(crate::specs::Parts::beacons_as_c))]
    fn from(r: Result<Beacons, Refusal>) -> MqBeacons {
        match r {
            Ok(Beacons::One(t)) => MqBeacons {
                refusal: 0,
                count: 1,
                first: t,
                second: 0,
            },
            Ok(Beacons::Two(t, u)) => MqBeacons {
                refusal: 0,
                count: 2,
                first: t,
                second: u,
            },
            Err(refusal) => MqBeacons {
                refusal: refusal.number(),
                count: 0,
                first: 0,
                second: 0,
            },
        }
    }
}
