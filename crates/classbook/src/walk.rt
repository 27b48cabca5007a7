// The one walk through a book, which every call makes first.
ghost use Rattle.std.specs.Prelude.{◌≡◌};
ghost use Rattle.classbook.specs.Book.{seat_of, common, book_ok};

use crate::Book;
use book_tables::Tally;
use seats::Seat;

// What it finds: whether the book meets its conditions, the common room in use, and the seat that a call names.
#[derive(Clone, Copy, Debug, PartialEq, Eq)]
pub struct Found {
    pub ok: bool,
    pub used: usize,
    pub seat: Seat,
}

// Walks through a book once and brings a seat; above 15 a closed one.
pub fn check(b: &Book, seat: u32) -> Found
    ensures { (result.ok ≡ book_ok b.now) × (result.used ≡ common b.now) × (result.seat ≡ seat_of b.now seat) }
{
    let mut t = Tally { ok: true, used: 0 };
    for s in &b.seats {
        t = book_tables::passed(t, s);
    }
    Found {
        ok: t.ok & (t.used <= 80),
        used: t.used,
        seat: crate::seat_named(b, seat),
    }
}
