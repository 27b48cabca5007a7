// Of a booking's own numbers: 2 and 4 to 8.
ghost use Rattle.std.specs.Prelude.{◌≡◌};
ghost use Rattle.refusals.specs.Refusals.{first_of, refusal_in};
ghost use Rattle.refusals.specs.Inside.{row_by_row};
ghost use Rattle.tables.specs.Tables.{form_refusals};

use conditions::Direction;
use refusals::Refusal;

#[tactic(auto, unfolding(crate::specs::Tables::form_refusals, refusals::specs::Refusals::first_of, refusals::specs::Refusals::number_of, refusals::specs::Inside::row_by_row, refusals::specs::Inside::or_refused))]
pub fn check_form(
    timeslot: u32,
    direction: Direction,
    burst: u32,
    factor: u32,
    index: u32,
    user: u32,
    tfci: u32,
    tpc: u32,
) -> Result<(), Refusal>
    ensures table { refusal_in result ≡ first_of (form_refusals timeslot direction burst factor index user tfci tpc) }
    ensures by_row { refusal_in result ≡ row_by_row 0 (form_refusals timeslot direction burst factor index user tfci tpc) }
{
    let code = conditions::bad_code(factor, index) | conditions::bad_down_factor(direction, factor);
    Refusal::BurstType.when(conditions::bad_type(burst))?;
    Refusal::User.when(conditions::bad_booked_user(burst, user))?;
    Refusal::Timeslot.when(conditions::bad_timeslot(timeslot))?;
    Refusal::Code.when(code)?;
    Refusal::DownlinkType.when(conditions::bad_down_type(direction, burst))?;
    Refusal::Control.when(conditions::bad_control(direction, tfci, tpc))
}
