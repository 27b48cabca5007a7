// The list of a seat.
use bookings::Booking;
use classbook::Book;
use conditions::Direction;
use lesson_replies::say;
use lesson_words::numbers::Values;
use printing::{Lines, Outputs};
use std::fmt::Write;

// `SLOT up|down TYPE FACTOR INDEX USER TFCI TPC`
fn booking(out: &mut Lines<'_, impl Outputs>, x: Booking) {
    let way = match x.direction {
        Direction::Up => "up",
        Direction::Down => "down",
    };
    let _ = writeln!(
        out,
        "{} {way} {} {} {} {} {} {}",
        x.timeslot, x.burst, x.factor, x.index, x.user, x.tfci, x.tpc
    );
}

pub fn list(out: &mut Lines<'_, impl Outputs>, v: Values, b: &Book) {
    match lesson_list::listed(*b, v.first) {
        Err(refusal) => say::refused(out, refusal),
        Ok(list) => {
            let _ = writeln!(out, "list {}", list.count);
            for &x in list.row.iter().take(list.count as usize) {
                booking(out, x);
            }
        }
    }
}
