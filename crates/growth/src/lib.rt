// What benchmarks/run measures: bookings in the class book, called over plain numbers. Nothing here is part of the library.
#![tactic(auto)]

ghost use Rattle.std.specs.Prelude.{◌≤◌};

use bookings::Booking;
use classbook::{Book, Request};
use conditions::Direction;
use refusals::Refusal;
use slots::Slot;

// Which seat booking number j goes to: ten to each of sixteen seats, then one after another to eight of them.
fn seat_of(j: u32) -> u32 {
    if j < 160 { j % 16 } else { j % 8 }
}

// The how manieth of its seat it is.
fn turn_of(j: u32) -> u32 {
    if j < 160 { j / 16 } else { (j - 160) / 8 + 10 }
}

// The request for it: up, type 1, factor 16, two codes in each of the timeslots 1 to 14, not asked for in list order.
fn request_of(j: u32, user: u32) -> Request {
    let p = turn_of(j);
    Request {
        timeslot: 1 + p % 14 * 5 % 14,
        direction: Direction::Up,
        burst: 1,
        factor: 16,
        index: 1 + p / 14 % 16,
        user,
        tfci: 0,
        tpc: 0,
    }
}

// 16, 8, 4 or 0.
fn long_count(j: u32) -> u32 {
    let t = 3 - j / 4 % 4;
    t * 4 + t / 3 * 4
}

// 6, 3, 0 or 7, which is refused.
fn short_count(j: u32) -> u32 {
    (j % 4 * 7 + 6) % 10
}

// Sixteen seats, opened with so many kinds of settings, of which the first has 16 and 6.
fn opened_book(kinds: u32) -> Book
    requires { 1 ≤ kinds }
{
    let mut b = classbook::empty_book();
    for i in 0..16 {
        let j = i % kinds;
        let _ = classbook::open_seat(
            &mut b,
            i,
            i,
            1 + j % 2,
            j % 8,
            long_count(j),
            short_count(j),
        );
    }
    b
}

// The first n bookings in it.
fn booked(n: u32) -> Book {
    let mut b = opened_book(1);
    for j in 0..n {
        let _ = classbook::book_code(&mut b, seat_of(j), request_of(j, 1));
    }
    b
}

// The refusal's number, or 0.
fn number_in(r: Result<(), Refusal>) -> u32 {
    match r {
        Ok(()) => 0,
        Err(refusal) => refusal.number(),
    }
}

// A book with so many bookings; then so many times one booking more, each time into that same book: its seat is put back. The sum of the refusals and of what the seat
// then holds.
#[unsafe(no_mangle)]
pub extern "C" fn growth_book(bookings: u32, times: u32) -> u32 {
    let mut b = booked(bookings);
    let seat = seat_of(bookings);
    let i = (seat % 16) as usize;
    let s = b.seats[i];
    let mut sum: u32 = 0;
    for t in 0..times {
        let r = classbook::book_code(&mut b, seat, request_of(bookings, 1 + t % 16));
        sum = sum
            .wrapping_add(number_in(r))
            .wrapping_add(b.seats[i].count as u32);
        b.seats[i] = s;
    }
    sum
}

// The next of a row of numbers below 65536 that look thrown.
fn next(x: u32) -> u32 {
    (x % 65536 * 4093 + 12345) % 65536
}

fn thrown_direction(x: u32) -> Direction {
    if x % 3 == 0 {
        Direction::Down
    } else {
        Direction::Up
    }
}

fn thrown_factor(x: u32) -> u32 {
    if x % 8 == 0 {
        return 1;
    }
    if x % 8 == 1 {
        return 8;
    }
    if x % 64 == 2 {
        return 3;
    }
    16
}

// A request of thrown numbers, most of them allowed.
fn thrown(x: u32) -> Request {
    let a = next(x);
    let b = next(a);
    let c = next(b);
    Request {
        timeslot: a / 64 % 16,
        direction: thrown_direction(b / 16),
        burst: 1 + b / 256 % 17 / 14 + b / 256 % 17 / 16,
        factor: thrown_factor(c / 16),
        index: 1 + c / 256 % 16,
        user: 1 + a / 1024 % 17,
        tfci: b / 2048 % 20 / 18 * 4,
        tpc: c / 4096 % 14 / 12,
    }
}

// A number that tells rows apart: the bookings of one, thrown together with what came before.
fn row_sum(row: &[Booking], before: u32) -> u32 {
    let mut sum = before;
    for y in row {
        sum = next(sum ^ y.timeslot as u32);
        sum = next(sum ^ y.index as u32);
        sum = next(sum ^ y.user as u32);
    }
    sum
}

// And one that tells summaries apart.
fn slots_sum(row: &[Slot], before: u32) -> u32 {
    let mut sum = before;
    for y in row {
        sum = next(sum ^ y.leaves as u32);
        sum = next(sum ^ slots::way_number(y.way) as u32);
        sum = next(sum ^ y.count as u32);
        sum = next(sum ^ y.second as u32);
    }
    sum
}

// And one that tells books apart.
fn book_sum(b: &Book, before: u32) -> u32 {
    let mut sum = before;
    for s in &b.seats {
        sum = next(sum ^ s.count as u32);
        sum = row_sum(&s.row, sum);
        sum = slots_sum(&s.slots, sum);
    }
    sum
}

// Thrown requests into sixteen seats of different settings, the book going on from call to call; what the answers and the last book were, as one number.
#[unsafe(no_mangle)]
pub extern "C" fn growth_mixed(seed: u32, calls: u32) -> u32 {
    let mut b = opened_book(16);
    let mut sum: u32 = seed % 65536;
    let mut x: u32 = seed % 65536;
    for _ in 0..calls {
        x = next(x);
        let r = classbook::book_code(&mut b, x / 16 % 17, thrown(x));
        sum = next(sum ^ number_in(r));
    }
    book_sum(&b, sum)
}
