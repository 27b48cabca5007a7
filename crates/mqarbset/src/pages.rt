// Paging bits over C.
ghost use Rattle.std.specs.Prelude.{◌≡◌};
ghost use Rattle.paging.specs.Calls.{indicator_answer, owner_answer, page_outcome, read_page_outcome};
ghost use Rattle.mqarbset_answers.specs.Answers.{outcome_as_c};
ghost use Rattle.mqarbset_answers.specs.Pages.{indicator_as_c, owner_as_c};

use mqarbset_answers::MqAnswer;
use mqarbset_answers::pages::{MqIndicator, MqOwner};

// Where a paging indicator sits. Refusals: 2, 10.
pub fn mq_indicator(burst: u32, length: u32, frames: u32, number: u32) -> MqIndicator
    ensures { result ≡ indicator_as_c (indicator_answer burst length frames number) }
{
    paging::indicator(burst, length, frames, number).into()
}

// Which indicator owns the bit at a place in time order, or that it is reserved. Refusals: 2, 10.
pub fn mq_owner(burst: u32, length: u32, bit: u32) -> MqOwner
    ensures { result ≡ owner_as_c (owner_answer burst length bit) }
{
    paging::owner(burst, length, bit).into()
}

// One frame's settings as bits, into the first 244 (type 2: 276) bytes of `out`; further bytes stay as they are. The value is how many bytes were written. Refusals: 2, 10, 11.
#[tactic(auto, unfolding(mqarbset_answers::specs::Answers::outcome_as_c))]
pub fn mq_page(burst: u32, length: u32, settings: &[u8], out: &mut [u8]) -> MqAnswer
    ensures { (result, out.new) ≡ outcome_as_c (page_outcome burst length settings.now out.old) }
{
    paging::page(burst, length, settings, out).into()
}

// One byte for each indicator q, 0 off, 1 on, 2 torn, into the first places of `out`; further bytes stay as they are. The value is how many were written. Refusals: 2, 10, 11.
#[tactic(auto, unfolding(mqarbset_answers::specs::Answers::outcome_as_c))]
pub fn mq_read_page(burst: u32, length: u32, bits: &[u8], out: &mut [u8]) -> MqAnswer
    ensures { (result, out.new) ≡ outcome_as_c (read_page_outcome burst length bits.now out.old) }
{
    paging::read_page(burst, length, bits, out).into()
}
