// Of opening: 1, 3, 9, 12, 13, 15.
ghost use Rattle.std.specs.Prelude.{◌≡◌};
ghost use Rattle.refusals.specs.Refusals.{first_of, refusal_in};
ghost use Rattle.book_tables.specs.Inside.{open_rows};

use refusals::Refusal;

// Of opening: the settings, their counts as they will be stored, and then the book and the seat.
#[tactic(auto, using(crate::proofs::Parts::settings_steps), unfolding(crate::specs::Inside::open_rows, refusals::specs::Refusals::first_of, refusals::specs::Refusals::number_of))]
pub fn check_open(
    ok: bool,
    seat: u32,
    live: bool,
    cell: u32,
    case: u32,
    k: u32,
    long: u32,
    short: u32,
) -> Result<(), Refusal>
    ensures { refusal_in result ≡ first_of (open_rows ok seat live cell case k long short) }
{
    tables::check_settings(cell, case, k, long, short)?;
    Refusal::BrokenBook.when(!ok)?;
    Refusal::NoSuchSeat.when(seat > 15)?;
    Refusal::SeatOpen.when(live)
}
