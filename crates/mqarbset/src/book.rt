// The class book over C: the caller holds it in bytes, which go in and come back by value.
ghost use Rattle.std.specs.Prelude.{◌≡◌};
ghost use Rattle.classbook.specs.Book.{empty_book};
ghost use Rattle.classbook.specs.Calls.{open_answer, cancel_answer, close_answer};
ghost use Rattle.mqarbset_answers.specs.Answers.{outcome_as_c};
ghost use Rattle.mqarbset_answers.specs.Summaries.{summary_as_c};
ghost use Rattle.mqarbset_book.specs.Mirror.{read_book, write_book};
ghost use Rattle.mqarbset_book.specs.Calls.{handed_back, book_answer_over_c};
ghost use Rattle.mqarbset_list.specs.Records.{records_outcome};
ghost use Rattle.summaries.specs.Summaries.{summary_answer};

use classbook::{Book, Request};
use mqarbset_answers::MqAnswer;
use mqarbset_answers::at_a_glance::MqSummary;
use mqarbset_book::{MqBook, MqBookAnswer, MqBooking, MqSeat, MqSlot};

// An empty book: no seat is open.
pub fn mq_empty_book() -> MqBook
    ensures { result ≡ write_book empty_book }
{
    let none = MqBooking {
        timeslot: 0,
        direction: 0,
        burst: 0,
        factor: 0,
        index: 0,
        user: 0,
        tfci: 0,
        tpc: 0,
    };
    let row = [none; 40];
    let free = MqSlot {
        low: 0,
        high: 0,
        way: 0,
        count: 0,
        second: 0,
    };
    let slots = [free; 15];
    let closed = MqSeat {
        live: 0,
        cell: 0,
        case: 0,
        k: 0,
        long: 0,
        short: 0,
        count: 0,
        row,
        slots,
    };
    let seats = [closed; 16];
    MqBook { seats }
}

// Opens a seat with a cell parameter, a synchronisation case and its k, and a long and a short count. Refusals: 1, 3, 9, 12, 13, 15.
pub fn mq_open_value(
    b: MqBook,
    seat: u32,
    cell: u32,
    case: u32,
    k: u32,
    long: u32,
    short: u32,
) -> MqBookAnswer
    ensures { result ≡ handed_back b (open_answer (read_book b) seat cell case k long short) }
{
    let mut c = Book::from(&b);
    let r = classbook::open_seat(&mut c, seat, cell, case, k, long, short);
    mqarbset_book::handed_back(b, r, &c)
}

// Books a code in a timeslot for a seat; direction 0 is up, 1 is down. Refusals: 2, 4 to 8, 12 to 14, 16 to 20; 6 also for a direction that is neither.
#[tactic(auto, using(mqarbset_book::proofs::Neither::book_over))]
pub fn mq_book_value(
    b: MqBook,
    seat: u32,
    timeslot: u32,
    direction: u32,
    burst: u32,
    factor: u32,
    index: u32,
    user: u32,
    tfci: u32,
    tpc: u32,
) -> MqBookAnswer
    ensures { result ≡ handed_back b (book_answer_over_c (read_book b) seat timeslot direction burst factor index user tfci tpc) }
{
    let mut c = Book::from(&b);
    let x = Request {
        timeslot,
        direction: mqarbset_book::read_direction(direction),
        burst,
        factor: mqarbset_book::factor_beside(direction, factor),
        index,
        user,
        tfci,
        tpc,
    };
    let r = classbook::book_code(&mut c, seat, x);
    mqarbset_book::handed_back(b, r, &c)
}

// Cancels the booking of a seat that is named by timeslot and code. Refusals: 5, 6, 12, 13, 14, 21.
pub fn mq_cancel_value(b: MqBook, seat: u32, timeslot: u32, factor: u32, index: u32) -> MqBookAnswer
    ensures { result ≡ handed_back b (cancel_answer (read_book b) seat timeslot factor index) }
{
    let mut c = Book::from(&b);
    let r = classbook::cancel_code(&mut c, seat, timeslot, factor, index);
    mqarbset_book::handed_back(b, r, &c)
}

// Closes a seat: its bookings and its settings go. Refusals: 12, 13, 14.
pub fn mq_close_value(b: MqBook, seat: u32) -> MqBookAnswer
    ensures { result ≡ handed_back b (close_answer (read_book b) seat) }
{
    let mut c = Book::from(&b);
    let r = classbook::close_seat(&mut c, seat);
    mqarbset_book::handed_back(b, r, &c)
}

// Lists a seat's bookings in records of eight bytes: timeslot, direction, type, factor, index, user, TFCI and TPC bits. The value is how many were written; further
// bytes stay as they are. Refusals: 11 (below 320 bytes, which are 40 records), 12, 13, 14.
#[tactic(auto, unfolding(mqarbset_answers::specs::Answers::outcome_as_c))]
pub fn mq_list_bytes(b: MqBook, seat: u32, out: &mut [u8]) -> MqAnswer
    ensures { (result, out.new) ≡ outcome_as_c (records_outcome (read_book b) seat out.old) }
{
    mqarbset_list::list(&b, seat, out).into()
}

// Which codes of a timeslot a seat has free: the leaves that its bookings cover, leaf l being bit 2^l, their direction (0 up, 1 down, 2 none) and their number.
// Refusals: 5, 12, 13, 14.
#[tactic(auto, using(summaries::proofs::Said::said_whole))]
pub fn mq_summary_value(b: MqBook, seat: u32, timeslot: u32) -> MqSummary
    ensures { result ≡ summary_as_c (summary_answer (read_book b) seat timeslot) }
{
    summaries::summary(&Book::from(&b), seat, timeslot).into()
}
