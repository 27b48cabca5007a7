// One booking: what it must meet by itself, and where it stands in a list.
#![tactic(auto)]

ghost use Rattle.std.specs.Prelude.{◌≡◌, not, ◌&&◌, ◌||◌, ◌≤◌, eqb};
ghost use Rattle.refusals.specs.Refusals.{refusal_in};
ghost use Rattle.bookings.specs.Bookings.{form_of, key, comes, breaks_beacon};

use conditions::Direction;
use refusals::Refusal;

// A booking of a seat. Its numbers were tested when it was booked, so they are kept in a byte each.
#[derive(Clone, Copy, Debug, PartialEq, Eq)]
pub struct Booking {
    pub timeslot: u8,
    pub direction: Direction,
    pub burst: u8,
    pub factor: u8,
    pub index: u8,
    pub user: u8,
    pub tfci: u8,
    pub tpc: u8,
}

// The refusals 2 and 4 to 8, of the own numbers of a booking in a book.
#[tactic(auto, unfolding(crate::specs::Bookings::form_of))]
pub fn check_form(x: Booking) -> Result<(), Refusal>
    ensures { refusal_in result ≡ form_of x }
{
    tables::check_form(
        u32::from(x.timeslot),
        x.direction,
        u32::from(x.burst),
        u32::from(x.factor),
        u32::from(x.index),
        u32::from(x.user),
        u32::from(x.tfci),
        u32::from(x.tpc),
    )
}

// Where a booking stands in a list: by timeslot, then by the first of 16 leaves.
pub fn key_of(x: Booking) -> u32
    ensures { (result ≡ key x) × (result ≤ 8160) }
{
    u32::from(x.timeslot) * 16 + leaves::leaf_at(x.index, leaves::leaves_of(x.factor))
}

// Whether x comes before y in a list.
#[tactic(auto, unfolding(crate::specs::Bookings::comes))]
pub fn comes_before(x: Booking, y: Booking) -> bool
    ensures { result ≡ comes x y }
{
    key_of(x) < key_of(y)
}

// Rule (a) is broken: only downlink type 1 is booked.
fn off_type(down: bool, burst: u8) -> bool
    ensures { result ≡ (not down || not (eqb burst 1)) }
{
    !down | !(burst == 1)
}

// Rule (b) or (c) is broken, where `first` says that the code is (16, 1): it takes user 1, and user 1 goes to no other code.
fn off_first(first: bool, user: u8) -> bool
    ensures { result ≡ ((first && not (eqb user 1)) || (eqb user 1 && not first)) }
{
    (first & !(user == 1)) | ((user == 1) & !first)
}

// Rule (d) or (e) is broken: user 2 is not booked, and users 9 and 10 are left unused.
fn off_user(user: u8) -> bool
    ensures { result ≡ (eqb user 2 || (eqb user 9 || eqb user 10)) }
{
    (user == 2) | ((user == 9) | (user == 10))
}

// Whether a booking in a beacon timeslot breaks one of the rules (a) to (f).
pub fn breaks_beacon(x: Booking) -> bool
    ensures { result ≡ breaks_beacon x }
{
    let first = (x.factor == 16) & (x.index == 1);
    let a = off_type(x.direction.is_down(), x.burst);
    let b = off_first(first, x.user);
    let d = off_user(x.user);
    let f = (x.factor == 1) & (x.index == 1);
    a | (b | (d | f))
}
