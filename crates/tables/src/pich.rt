// Of every call on paging bits: 2 and 10.
ghost use Rattle.std.specs.Prelude.{◌≡◌};
ghost use Rattle.refusals.specs.Refusals.{first_of, refusal_in};
ghost use Rattle.refusals.specs.Inside.{row_by_row};
ghost use Rattle.tables.specs.Tables.{pich_refusals};

use refusals::Refusal;

#[tactic(auto, unfolding(crate::specs::Tables::pich_refusals, refusals::specs::Refusals::first_of, refusals::specs::Refusals::number_of, refusals::specs::Inside::row_by_row, refusals::specs::Inside::or_refused))]
pub fn check_pich(burst: u32, length: u32) -> Result<(), Refusal>
    ensures table { refusal_in result ≡ first_of (pich_refusals burst length) }
    ensures by_row { refusal_in result ≡ row_by_row 0 (pich_refusals burst length) }
{
    Refusal::BurstType.when(conditions::bad_type(burst))?;
    Refusal::OutOfRange.when(conditions::bad_pich(burst, length))
}
