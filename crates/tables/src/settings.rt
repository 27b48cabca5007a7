// Of an open seat's settings: 1, 3 and 9.
ghost use Rattle.std.specs.Prelude.{◌≡◌};
ghost use Rattle.refusals.specs.Refusals.{first_of, refusal_in};
ghost use Rattle.refusals.specs.Inside.{row_by_row};
ghost use Rattle.tables.specs.Tables.{settings_refusals};

use refusals::Refusal;

#[tactic(auto, unfolding(crate::specs::Tables::settings_refusals, refusals::specs::Refusals::first_of, refusals::specs::Refusals::number_of, refusals::specs::Inside::row_by_row, refusals::specs::Inside::or_refused))]
pub fn check_settings(cell: u32, case: u32, k: u32, long: u32, short: u32) -> Result<(), Refusal>
    ensures table { refusal_in result ≡ first_of (settings_refusals cell case k long short) }
    ensures by_row { refusal_in result ≡ row_by_row 0 (settings_refusals cell case k long short) }
{
    let counts = conditions::bad_count(1, long) | conditions::bad_count(2, short);
    Refusal::Cell.when(conditions::bad_cell(cell))?;
    Refusal::Count.when(counts)?;
    Refusal::Synchronisation.when(conditions::bad_beacon(case, k))
}
