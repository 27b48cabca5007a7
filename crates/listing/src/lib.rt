// Document 01, "The class book": a list goes into a lent row of booking records.
#![tactic(auto)]

ghost use Rattle.std.specs.Prelude.{◌≡◌, ◌++◌, ◌≤◌, ltb, length, take, drop};
ghost use Rattle.refusals.specs.Refusals.{said, ◌leaving◌};
ghost use Rattle.classbook.specs.Calls.{said_list};
ghost use Rattle.listing.specs.Listing.{list_outcome};
ghost use Rattle.listing.specs.Inside.{selection_of};

use bookings::Booking;
use classbook::{Book, List};
use refusals::Refusal;

// Refusal 11: fewer than 40 records, however few the list writes.
fn few_records(size: usize) -> bool
    ensures { result ≡ ltb size 40 }
{
    size < 40
}

// What is to be written into so many records: the list by value.
fn selected(b: &Book, seat: u32, size: usize) -> Result<List, Refusal>
    ensures { said_list result ≡ selection_of b.now seat size }
{
    Refusal::ShortMemory.when(few_records(size))?;
    classbook::list_seat(b, seat)
}

// The records are written from the front; further ones stay as they were.
fn fill(out: &mut [Booking], l: &List)
    requires { (l.now.count ≤ 40) × (l.now.count ≤ length out.old) }
    ensures { out.new ≡ take l.now.count l.now.row ++ drop l.now.count out.old }
{
    let n = l.count as usize;
    out[..n].copy_from_slice(&l.row[..n]);
}

// Lists a seat's bookings into lent records. Refusals: 11, 12, 13, 14.
pub fn list(b: &Book, seat: u32, out: &mut [Booking]) -> Result<u32, Refusal>
    ensures { said result leaving out.new ≡ list_outcome b.now seat out.old }
{
    let l = selected(b, seat, out.len())?;
    fill(out, &l);
    Ok(l.count)
}
