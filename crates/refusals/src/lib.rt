// "Refusal numbers": what a call says where it refuses. The table of numbers, and what a call's result says of them, is in specs/Refusals.antt.
#![tactic(auto)]

ghost use Rattle.std.specs.Prelude.{◌≡◌, OnOk, IfErr, IsTrue, IsFalse};
ghost use Rattle.refusals.specs.Refusals.{number_of, refusal_in};
ghost use Rattle.refusals.specs.Inside.{or_refused};

// Why a call is refused, with the numbers of the table.
#[derive(Clone, Copy, Debug, PartialEq, Eq)]
pub enum Refusal {
    Cell = 1,
    BurstType = 2,
    Count = 3,
    User = 4,
    Timeslot = 5,
    Code = 6,
    DownlinkType = 7,
    Control = 8,
    Synchronisation = 9,
    OutOfRange = 10,
    ShortMemory = 11,
    BrokenBook = 12,
    NoSuchSeat = 13,
    SeatClosed = 14,
    SeatOpen = 15,
    UserOfSeat = 16,
    Clash = 17,
    BeaconRule = 18,
    SeatFull = 19,
    RoomUsedUp = 20,
    NoSuchBooking = 21,
    Level = 22,
    BlockPlace = 23,
    Sample = 24,
}

impl Refusal {
    // Refuses where the condition holds. A call reads its table with one such line a row: `Refusal::Cell.when(cell > 127)?`.
    #[tactic(auto, unfolding(crate::specs::Inside::or_refused))]
    pub fn when(self, holds: bool) -> Result<(), Refusal>
        ensures passed { OnOk result (IsFalse holds) }
        ensures refused { IfErr result (λ r. (r ≡ self) × IsTrue holds) }
        ensures row { refusal_in result ≡ or_refused 0 (number_of self) holds }
    {
        if holds { Err(self) } else { Ok(()) }
    }

    // Its number in the table.
    #[tactic(auto, unfolding(crate::specs::Refusals::number_of))]
    pub fn number(self) -> u32
        ensures { result ≡ number_of self }
    {
        self as u32
    }
}
