// Midambles by the block over C.
ghost use Rattle.std.specs.Prelude.{◌≡◌};
ghost use Rattle.blocks.specs.Calls.{start_answer, block_outcome};
ghost use Rattle.mqarbset_answers.specs.Blocks.{held_as_place, start_as_c, block_outcome_as_c};

use blocks::Place;
use mqarbset_answers::by_block::{MqBlock, MqBlockPlace, MqBlockStart};

// The place before the first chip of a user's midamble. Refusals: 1, 2, 3, 4.
pub fn mq_block_start(cell: u32, burst: u32, count: u32, user: u32) -> MqBlockStart
    ensures { result ≡ start_as_c (start_answer cell burst count user) }
{
    blocks::start(cell, burst, count, user).into()
}

// The chips from a place on, as many as block and midamble have left, into the first bytes of `out`; further bytes stay as they are. How many were written, and the
// place behind them; refused, the place that was handed in. Refusals: 1, 2, 3, 4, 23.
#[tactic(auto, unfolding(mqarbset_answers::specs::Blocks::block_outcome_as_c))]
pub fn mq_block_value(place: MqBlockPlace, out: &mut [u8]) -> MqBlock
    ensures { (result, out.new) ≡ block_outcome_as_c (block_outcome (held_as_place place) out.old) }
{
    let mut p = Place::from(place);
    let r = blocks::block(&mut p, out);
    MqBlock::new(r, p)
}
