// A list over C: a seat's bookings as records of eight bytes, into lent memory.
#![tactic(auto)]

ghost use Rattle.std.specs.Prelude.{◌≡◌, ◌++◌, ◌*◌, ◌≤◌, length, drop};
ghost use Rattle.refusals.specs.Refusals.{said, ◌leaving◌};
ghost use Rattle.classbook.specs.Calls.{said_list, list_answer};
ghost use Rattle.mqarbset_book.specs.Mirror.{read_book};
ghost use Rattle.mqarbset_list.specs.Records.{record_of, records_of, records_outcome};

use bookings::Booking;
use classbook::{Book, List};
use mqarbset_book::MqBook;
use refusals::Refusal;

// A booking as a record.
#[tactic(auto, unfolding(crate::specs::Records::record_of), using(mqarbset_book::proofs::Flags::down_byte))]
fn record_of(x: Booking) -> [u8; 8]
    ensures { result ≡ record_of x }
{
    [
        x.timeslot,
        x.direction.is_down() as u8,
        x.burst,
        x.factor,
        x.index,
        x.user,
        x.tfci,
        x.tpc,
    ]
}

// A record each, from the front; further bytes stay as they were. Inside this crate only: the list has tested the memory before.
fn put_all(out: &mut [u8], row: &[Booking])
    requires { 8 * length row.now ≤ length out.old }
    ensures { out.new ≡ records_of row.now ++ drop (8 * length row.now) out.old }
{
    for (i, x) in row.iter().enumerate() {
        out[8 * i..8 * i + 8].copy_from_slice(&record_of(*x));
    }
}

// The list by value, of the book that a caller's bytes say.
fn list_said(b: &MqBook, seat: u32) -> Result<List, Refusal>
    ensures { said_list result ≡ list_answer (read_book b.now) seat }
{
    classbook::list_seat(&Book::from(b), seat)
}

// Lists a seat's bookings into lent memory, eight bytes each. Where that is too short, the book's bytes are not read. Refusals: 11, 12, 13, 14.
pub fn list(b: &MqBook, seat: u32, out: &mut [u8]) -> Result<u32, Refusal>
    ensures { said result leaving out.new ≡ records_outcome (read_book b.now) seat out.old }
{
    Refusal::ShortMemory.when(out.len() < 320)?;
    let l = list_said(b, seat)?;
    let row = &l.row[..l.count as usize];
    put_all(out, row);
    Ok(l.count)
}
