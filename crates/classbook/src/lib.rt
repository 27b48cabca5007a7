// The class book (document 01, "The class book"): sixteen seats in one value, which is lent to each call and stays as it was where the call refuses.
// Any book may be handed in: each call first decides whether it meets its conditions.
#![tactic(auto)]

mod walk;

ghost use Rattle.std.specs.Prelude.{◌≡◌, ◌≤◌, ◌<◌};
ghost use Rattle.bookings.specs.Bookings.{form_of};
ghost use Rattle.classbook.specs.Book.{empty_book, seat_of, with_seat, book_ok};
ghost use Rattle.classbook.specs.Calls.{long_count, short_count, said_book, open_answer, as_booking, book_answer, cancel_answer, close_answer, said_seat, seat_answer, said_list, list_answer};
ghost use Rattle.classbook.specs.Inside.{booking_answer};

use bookings::Booking;
use conditions::Direction;
use refusals::Refusal;
use seats::Seat;

#[derive(Clone, Copy, Debug, PartialEq, Eq)]
pub struct Book {
    pub seats: [Seat; 16],
}

// A booking as a learner asks for it, in numbers of any size.
#[derive(Clone, Copy, Debug, PartialEq, Eq)]
pub struct Request {
    pub timeslot: u32,
    pub direction: Direction,
    pub burst: u32,
    pub factor: u32,
    pub index: u32,
    pub user: u32,
    pub tfci: u32,
    pub tpc: u32,
}

// How many bookings a seat has; and a row of which the first so many are the bookings in list order.
#[derive(Clone, Copy, Debug, PartialEq, Eq)]
pub struct List {
    pub count: u32,
    pub row: [Booking; 40],
}

// An empty book: made by the program, never by a learner.
#[tactic(auto, unfolding(crate::specs::Book::empty_book))]
pub fn empty_book() -> Book
    ensures { result ≡ empty_book }
{
    Book {
        seats: [seats::closed_seat(); 16],
    }
}

// Whether a book meets its conditions.
pub fn book_ok(b: &Book) -> bool
    ensures { result ≡ book_ok b.now }
{
    walk::check(b, 0).ok
}

// The seat of a number, whether or not it meets its conditions; above 15 a closed one. No call of document 01: what a call shows of a seat is `seat_asked`.
#[tactic(auto, unfolding(crate::specs::Book::seat_of))]
pub fn seat_named(b: &Book, seat: u32) -> Seat
    ensures { result ≡ seat_of b.now seat }
{
    if seat < 16 {
        b.seats[seat as usize]
    } else {
        seats::closed_seat()
    }
}

// Another seat in the place of this one.
#[tactic(auto, unfolding(crate::specs::Book::with_seat))]
fn exchange(b: &mut Book, seat: u32, s: Seat)
    requires { seat < 16 }
    ensures { b.new ≡ with_seat b.old seat s }
{
    b.seats[seat as usize] = s;
}

// "A count of 0 in opening now means 8": the long count as it is stored.
#[tactic(auto, unfolding(crate::specs::Calls::long_count))]
fn long_count(long: u32) -> u32
    ensures { result ≡ long_count long }
{
    if long == 0 { 8 } else { long }
}

// "and 3": the short count.
#[tactic(auto, unfolding(crate::specs::Calls::short_count))]
fn short_count(short: u32) -> u32
    ensures { result ≡ short_count short }
{
    if short == 0 { 3 } else { short }
}

// Opens a seat with a cell parameter, a synchronisation case and its k, and a long and a short count. Refusals: 1, 3, 9, 12, 13, 15.
pub fn open_seat(
    b: &mut Book,
    seat: u32,
    cell: u32,
    case: u32,
    k: u32,
    long: u32,
    short: u32,
) -> Result<(), Refusal>
    ensures { said_book result b.new ≡ open_answer b.old seat cell case k long short }
{
    let l = long_count(long);
    let s = short_count(short);
    let found = walk::check(b, seat);
    book_tables::check_open(found.ok, seat, found.seat.live, cell, case, k, l, s)?;
    exchange(b, seat, seats::opened_seat(cell, case, k, l, s));
    Ok(())
}

// A request as it is kept. Inside this crate only: the calls have tested its numbers before.
#[tactic(auto, unfolding(crate::specs::Calls::as_booking))]
fn kept(x: Request) -> Booking
    requires { (x.timeslot ≤ 255) × (x.burst ≤ 255) × (x.factor ≤ 255) × (x.index ≤ 255) × (x.user ≤ 255) × (x.tfci ≤ 255) × (x.tpc ≤ 255) }
    ensures { result ≡ as_booking x }
{
    Booking {
        timeslot: x.timeslot as u8,
        direction: x.direction,
        burst: x.burst as u8,
        factor: x.factor as u8,
        index: x.index as u8,
        user: x.user as u8,
        tfci: x.tfci as u8,
        tpc: x.tpc as u8,
    }
}

// Books it: the request's own numbers have been tested.
fn book_kept(b: &mut Book, seat: u32, x: Booking) -> Result<(), Refusal>
    requires { form_of x ≡ 0 }
    ensures { said_book result b.new ≡ booking_answer b.old seat x }
{
    let mut found = walk::check(b, seat);
    book_tables::check_booking(found.ok, found.used, seat, &found.seat, x)?;
    plans::with_booking(&mut found.seat, x);
    exchange(b, seat, found.seat);
    Ok(())
}

// Books a code in a timeslot for a seat. Refusals: 2, 4 to 8, 12 to 14, 16 to 20.
pub fn book_code(b: &mut Book, seat: u32, x: Request) -> Result<(), Refusal>
    ensures { said_book result b.new ≡ book_answer b.old seat x }
{
    tables::check_form(
        x.timeslot,
        x.direction,
        x.burst,
        x.factor,
        x.index,
        x.user,
        x.tfci,
        x.tpc,
    )?;
    book_kept(b, seat, kept(x))
}

// Cancels the booking of a seat that is named by timeslot and code. Refusals: 5, 6, 12, 13, 14, 21.
pub fn cancel_code(
    b: &mut Book,
    seat: u32,
    timeslot: u32,
    factor: u32,
    index: u32,
) -> Result<(), Refusal>
    ensures { said_book result b.new ≡ cancel_answer b.old seat timeslot factor index }
{
    let mut found = walk::check(b, seat);
    let s = &found.seat;
    let place = plans::place_named(s.bookings(), timeslot, factor, index);
    let p = book_tables::check_cancel(found.ok, seat, s.live, timeslot, factor, index, place)?;
    plans::without_at(&mut found.seat, p);
    exchange(b, seat, found.seat);
    Ok(())
}

// Closes a seat: its bookings and its settings go. Refusals: 12, 13, 14.
pub fn close_seat(b: &mut Book, seat: u32) -> Result<(), Refusal>
    ensures { said_book result b.new ≡ close_answer b.old seat }
{
    let found = walk::check(b, seat);
    book_tables::check_seat(found.ok, seat, found.seat.live)?;
    exchange(b, seat, seats::closed_seat());
    Ok(())
}

// The seat that a call names. Refusals: 12, 13, 14. No call of document 01: public for the crate summaries.
pub fn seat_asked(b: &Book, seat: u32) -> Result<Seat, Refusal>
    ensures { said_seat b.now seat result ≡ seat_answer b.now seat }
{
    let asked = walk::check(b, seat);
    book_tables::check_seat(asked.ok, seat, asked.seat.live)?;
    Ok(asked.seat)
}

// Lists a seat's bookings by value. Refusals: 12, 13, 14.
pub fn list_seat(b: &Book, seat: u32) -> Result<List, Refusal>
    ensures { said_list result ≡ list_answer b.now seat }
{
    let listed = walk::check(b, seat);
    book_tables::check_seat(listed.ok, seat, listed.seat.live)?;
    let count = listed.seat.held() as u32;
    let row = listed.seat.row;
    Ok(List { count, row })
}
