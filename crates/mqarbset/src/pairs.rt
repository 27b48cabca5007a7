// Chips for the signal card over C.
ghost use Rattle.std.specs.Prelude.{◌≡◌};
ghost use Rattle.signal_card.specs.Calls.{pair_answer, pairs_outcome};
ghost use Rattle.mqarbset_answers.specs.Answers.{outcome_as_c};
ghost use Rattle.mqarbset_answers.specs.Pairs.{pair_as_c};

use mqarbset_answers::MqAnswer;
use mqarbset_answers::pairs::MqPair;

// Chip `chip` (from 1) of a user's midamble at a level: its real part and its imaginary part. Refusals: 1, 2, 3, 4, 10, 22.
pub fn mq_pair(cell: u32, burst: u32, count: u32, user: u32, chip: u32, level: u32) -> MqPair
    ensures { result ≡ pair_as_c (pair_answer cell burst count user chip level) }
{
    signal_card::pair(cell, burst, count, user, chip, level).into()
}

// All chips of a user's midamble at a level, real then imaginary, into the first 1,024 (type 2: 512) floats of `out`; further floats stay as they are. The value is how
// many floats were written. Refusals: 1, 2, 3, 4, 11, 22.
#[tactic(auto, unfolding(mqarbset_answers::specs::Answers::outcome_as_c))]
pub fn mq_pairs(
    cell: u32,
    burst: u32,
    count: u32,
    user: u32,
    level: u32,
    out: &mut [f32],
) -> MqAnswer
    ensures { (result, out.new) ≡ outcome_as_c (pairs_outcome cell burst count user level out.old) }
{
    signal_card::pairs(cell, burst, count, user, level, out).into()
}
