// Of a timeslot: 2, 6 (factor and direction only), 7, 8.
ghost use Rattle.std.specs.Prelude.{◌≡◌};
ghost use Rattle.refusals.specs.Refusals.{first_of, refusal_in};
ghost use Rattle.refusals.specs.Inside.{row_by_row};
ghost use Rattle.tables.specs.Tables.{parts_refusals};

use conditions::Direction;
use refusals::Refusal;

#[tactic(auto, unfolding(crate::specs::Tables::parts_refusals, refusals::specs::Refusals::first_of, refusals::specs::Refusals::number_of, refusals::specs::Inside::row_by_row, refusals::specs::Inside::or_refused))]
pub fn check_parts(
    burst: u32,
    direction: Direction,
    factor: u32,
    tfci: u32,
    tpc: u32,
) -> Result<(), Refusal>
    ensures table { refusal_in result ≡ first_of (parts_refusals burst direction factor tfci tpc) }
    ensures by_row { refusal_in result ≡ row_by_row 0 (parts_refusals burst direction factor tfci tpc) }
{
    let code = conditions::bad_factor(factor) | conditions::bad_down_factor(direction, factor);
    Refusal::BurstType.when(conditions::bad_type(burst))?;
    Refusal::Code.when(code)?;
    Refusal::DownlinkType.when(conditions::bad_down_type(direction, burst))?;
    Refusal::Control.when(conditions::bad_control(direction, tfci, tpc))
}
