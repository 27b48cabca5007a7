// Of closing and listing: 12, 13, 14.
ghost use Rattle.std.specs.Prelude.{◌≡◌};
ghost use Rattle.refusals.specs.Refusals.{first_of, refusal_in};
ghost use Rattle.book_tables.specs.Inside.{seat_rows};

use refusals::Refusal;

// Of closing and listing; a booking begins with it too.
#[tactic(auto, unfolding(crate::specs::Inside::seat_rows, refusals::specs::Refusals::first_of, refusals::specs::Refusals::number_of))]
pub fn check_seat(ok: bool, seat: u32, live: bool) -> Result<(), Refusal>
    ensures { refusal_in result ≡ first_of (seat_rows ok seat live) }
{
    Refusal::BrokenBook.when(!ok)?;
    Refusal::NoSuchSeat.when(seat > 15)?;
    Refusal::SeatClosed.when(!live)
}
