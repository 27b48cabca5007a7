// The C interface: each call of documents 01 and 02 under the prefix mq_, with its answer as a struct. A slice passes as a pointer and then a length.
// Each only calls the proved call and turns its answer into the struct; the crate mqarbset_c exports them.
#![tactic(auto)]

pub mod air;
pub mod book;
pub mod by_block;
pub mod pages;
pub mod pairs;
pub mod parts;
pub mod version;

ghost use Rattle.std.specs.Prelude.{◌≡◌};
ghost use Rattle.midambles.specs.Calls.{chip_answer, midamble_outcome};
ghost use Rattle.refusal_words.specs.Words.{words_outcome};
ghost use Rattle.mqarbset_answers.specs.Answers.{answer_as_c, outcome_as_c};

use mqarbset_answers::MqAnswer;

// Chip `chip` (from 1) of a user's midamble: its power of j, 0 to 3. Refusals: 1, 2, 3, 4, 10.
pub fn mq_midamble_chip(cell: u32, burst: u32, count: u32, user: u32, chip: u32) -> MqAnswer
    ensures { result ≡ answer_as_c (chip_answer cell burst count user chip) }
{
    midambles::midamble_chip(cell, burst, count, user, chip).into()
}

// All chips of a user's midamble, into the first 512 (type 2: 256) bytes of `out`; further bytes stay as they are. The value is how many bytes were
// written. Refusals: 1, 2, 3, 4, 11.
#[tactic(auto, unfolding(mqarbset_answers::specs::Answers::outcome_as_c))]
pub fn mq_midamble(cell: u32, burst: u32, count: u32, user: u32, out: &mut [u8]) -> MqAnswer
    ensures { (result, out.new) ≡ outcome_as_c (midamble_outcome cell burst count user out.old) }
{
    midambles::midamble(cell, burst, count, user, out).into()
}

// The words of a refusal number as ASCII bytes, into the first places of `out`; further bytes stay as they are. The value is how many bytes were written, 0 for a
// number that is no refusal's. Refusal: 11.
#[tactic(auto, unfolding(mqarbset_answers::specs::Answers::outcome_as_c))]
pub fn mq_refusal_text(number: u32, out: &mut [u8]) -> MqAnswer
    ensures { (result, out.new) ≡ outcome_as_c (words_outcome number out.old) }
{
    refusal_words::words(number, out).into()
}
