// docs/LESSONS.md: the calls of a lesson that ask for numbers and change nothing, and every reply as a line of output.
#![tactic(auto)]

pub mod air_calls;
pub mod beacon_calls;
pub mod card_calls;
pub mod help;
pub mod midamble_calls;
pub mod paging_calls;
pub mod replies;
pub mod say;
pub mod summary_calls;
pub mod timeslot_calls;
