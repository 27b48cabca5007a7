// docs/LESSONS.md, `list SEAT`: forty records are lent to document 01's list, and what it replied
// and left in them is handed on by value.
#![tactic(auto)]

ghost use Rattle.std.specs.Prelude.{◌≡◌};
ghost use Rattle.classbook.specs.Calls.{said_list, list_answer};

use classbook::{Book, List};
use refusals::Refusal;

// `list SEAT`: the list into lent records, all blank, which is the list by value.
pub fn listed(b: Book, seat: u32) -> Result<List, Refusal>
    ensures { said_list result ≡ list_answer b seat }
{
    let mut row = [seats::blank_booking(); 40];
    let count = listing::list(&b, seat, &mut row)?;
    Ok(List { count, row })
}
