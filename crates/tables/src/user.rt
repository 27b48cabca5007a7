// Of what names a user's midamble: 1, 2, 3, 4.
ghost use Rattle.std.specs.Prelude.{◌≡◌};
ghost use Rattle.refusals.specs.Refusals.{first_of, refusal_in};
ghost use Rattle.refusals.specs.Inside.{row_by_row};
ghost use Rattle.tables.specs.Tables.{user_refusals};

use refusals::Refusal;

#[tactic(auto, unfolding(crate::specs::Tables::user_refusals, refusals::specs::Refusals::first_of, refusals::specs::Refusals::number_of, refusals::specs::Inside::row_by_row, refusals::specs::Inside::or_refused))]
pub fn check_user(cell: u32, burst: u32, count: u32, user: u32) -> Result<(), Refusal>
    ensures table { refusal_in result ≡ first_of (user_refusals cell burst count user) }
    ensures by_row { refusal_in result ≡ row_by_row 0 (user_refusals cell burst count user) }
{
    Refusal::Cell.when(conditions::bad_cell(cell))?;
    Refusal::BurstType.when(conditions::bad_type(burst))?;
    Refusal::Count.when(conditions::bad_count(burst, count))?;
    Refusal::User.when(conditions::bad_user(burst, count, user))
}
