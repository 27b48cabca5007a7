// Who is on the air over C.
ghost use Rattle.std.specs.Prelude.{◌≡◌};
ghost use Rattle.hearing.specs.Calls.{hear_answer};
ghost use Rattle.mqarbset_answers.specs.Air.{heard_as_c};

use mqarbset_answers::air::MqHear;

// Who is on the air in a cell, by burst type and count, in the first 1,024 (type 2: 512) floats of `row`, real then imaginary, chip after chip. Refusals: 1, 2, 3, 11, 24.
pub fn mq_hear(cell: u32, burst: u32, count: u32, row: &[f32]) -> MqHear
    ensures { result ≡ heard_as_c (hear_answer cell burst count row.now) }
{
    hearing::hear(cell, burst, count, row).into()
}
