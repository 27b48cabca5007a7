// Of cancelling: 5, 6, 12, 13, 14, 21.
ghost use Rattle.std.specs.Prelude.{◌≡◌, is_none, IfOk};
ghost use Rattle.refusals.specs.Refusals.{first_of, refusal_in};
ghost use Rattle.book_tables.specs.Inside.{cancel_rows};

use refusals::Refusal;

// Of cancelling, where the seat has the booking that is named at a place, or has none: the place.
#[tactic(auto, unfolding(crate::specs::Inside::cancel_rows, refusals::specs::Refusals::first_of, refusals::specs::Refusals::number_of))]
pub fn check_cancel(
    ok: bool,
    seat: u32,
    live: bool,
    timeslot: u32,
    factor: u32,
    index: u32,
    place: Option<usize>,
) -> Result<usize, Refusal>
    ensures table { refusal_in result ≡ first_of (cancel_rows ok seat live timeslot factor index (is_none place)) }
    ensures found { IfOk result (λ p. place ≡ Some p) }
{
    Refusal::Timeslot.when(conditions::bad_timeslot(timeslot))?;
    Refusal::Code.when(conditions::bad_code(factor, index))?;
    Refusal::BrokenBook.when(!ok)?;
    Refusal::NoSuchSeat.when(seat > 15)?;
    Refusal::SeatClosed.when(!live)?;
    place.ok_or(Refusal::NoSuchBooking)
}
