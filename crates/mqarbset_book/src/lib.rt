// The class book as a C caller holds it, in bytes: read, written, and handed back with an answer. Whatever bytes a caller hands in are a value of their type.
#![tactic(auto)]

mod reading;
mod writing;

ghost use Rattle.std.specs.Prelude.{◌≡◌};
ghost use Rattle.classbook.specs.Calls.{said_book};
ghost use Rattle.mqarbset_book.specs.Mirror.{read_direction, proper_booking, proper_slot, proper_seat, proper};
ghost use Rattle.mqarbset_book.specs.Inside.{factor_beside};
ghost use Rattle.mqarbset_book.specs.Calls.{handed_back};

use classbook::Book;
use conditions::Direction;
use refusals::Refusal;

// A booking in eight bytes: direction 0 is up, 1 is down.
#[repr(C)]
#[derive(Clone, Copy)]
pub struct MqBooking {
    pub timeslot: u8,
    pub direction: u8,
    pub burst: u8,
    pub factor: u8,
    pub index: u8,
    pub user: u8,
    pub tfci: u8,
    pub tpc: u8,
}

impl MqBooking {
    // Whether each byte that should be 0 or 1 is.
    #[tactic(auto, unfolding(crate::specs::Mirror::neither))]
    fn is_proper(self) -> bool
        ensures { result ≡ proper_booking self }
    {
        !(self.direction > 1)
    }
}

// What is kept of a timeslot, in five bytes: the pattern's low and high byte, the way (0 neither, 1 up, 2 down), how many bookings, and 1 where they are type 2.
#[repr(C)]
#[derive(Clone, Copy)]
pub struct MqSlot {
    pub low: u8,
    pub high: u8,
    pub way: u8,
    pub count: u8,
    pub second: u8,
}

impl MqSlot {
    // Whether each byte that should be 0 or 1, or 0 to 2, is.
    #[tactic(auto, unfolding(crate::specs::Mirror::neither))]
    fn is_proper(self) -> bool
        ensures { result ≡ proper_slot self }
    {
        !(self.way > 2) & !(self.second > 1)
    }
}

// A seat: live 0 is closed, 1 is open.
#[repr(C)]
#[derive(Clone, Copy)]
pub struct MqSeat {
    pub live: u8,
    pub cell: u8,
    pub case: u8,
    pub k: u8,
    pub long: u8,
    pub short: u8,
    pub count: u8,
    pub row: [MqBooking; 40],
    pub slots: [MqSlot; 15],
}

impl MqSeat {
    // The same of the whole seat.
    fn is_proper(&self) -> bool
        ensures { result ≡ proper_seat self.now }
    {
        !(self.live > 1)
            & self.row.iter().all(|x| x.is_proper())
            & self.slots.iter().all(|x| x.is_proper())
    }
}

#[repr(C)]
#[derive(Clone, Copy)]
pub struct MqBook {
    pub seats: [MqSeat; 16],
}

impl MqBook {
    // The same of each seat.
    fn is_proper(&self) -> bool
        ensures { result ≡ proper self.now }
    {
        self.seats.iter().all(|s| s.is_proper())
    }
}

// The refusal's number, or 0, and the book as the call leaves it.
#[repr(C)]
#[derive(Clone, Copy)]
pub struct MqBookAnswer {
    pub refusal: u32,
    pub book: MqBook,
}

// 0 is up and 1 is down.
#[tactic(auto, unfolding(crate::specs::Mirror::read_direction))]
pub fn read_direction(d: u32) -> Direction
    ensures { result ≡ read_direction d }
{
    if d == 1 {
        Direction::Down
    } else {
        Direction::Up
    }
}

// The factor beside a direction: 0, which is none, where that is neither up nor down, so that the call is refused at 6.
#[tactic(auto, unfolding(crate::specs::Mirror::neither, crate::specs::Inside::factor_beside))]
pub fn factor_beside(direction: u32, factor: u32) -> u32
    ensures { result ≡ factor_beside direction factor }
{
    if direction > 1 { 0 } else { factor }
}

// What a call on the book that the caller's bytes b say answered, and the book that it made: a refused call hands the very same bytes back.
#[tactic(auto, unfolding(crate::specs::Calls::handed_back, refusals::specs::Refusals::after), using(refusals::proofs::First::after_refused, refusals::proofs::Numbers::number_not_0))]
pub fn handed_back(b: MqBook, r: Result<(), Refusal>, made: &Book) -> MqBookAnswer
    ensures { result ≡ handed_back b (said_book r made.now) }
{
    match r {
        Ok(()) => MqBookAnswer {
            refusal: 0,
            book: MqBook::from(made),
        },
        Err(refusal) => MqBookAnswer {
            refusal: refusal.number(),
            book: b,
        },
    }
}

// The same by the refusal's number, or 0, whatever number that is. `handed_back` does not go through it: its bytes would be copied once more.
#[tactic(auto, unfolding(crate::specs::Calls::handed_back, refusals::specs::Refusals::after), using(refusals::proofs::First::after_refused))]
pub fn handed_back_by_number(b: MqBook, refusal: u32, made: &Book) -> MqBookAnswer
    ensures { result ≡ handed_back b (record { refusal = refusal; book = made.now }) }
{
    let book = if refusal == 0 { MqBook::from(made) } else { b };
    MqBookAnswer { refusal, book }
}
