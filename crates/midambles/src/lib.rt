// Training sequences (document 01, "Training sequences"; TS 25.221 clause 5.2.3 and Annex A): one midamble chip, and a whole midamble.
#![tactic(auto, using(crate::proofs::Answers::user_steps), unfolding(crate::specs::Calls::chip_refusals, crate::specs::Calls::chip_answer, crate::specs::Calls::midamble_refusals, crate::specs::Calls::midamble_outcome, crate::specs::TrainingSequences::chip_of, crate::specs::TrainingSequences::chips_of, conditions::specs::Conditions::bad_midamble_chip, conditions::specs::Conditions::too_short, refusals::specs::Refusals::first_of, refusals::specs::Refusals::answer, refusals::specs::Refusals::after, refusals::specs::Refusals::number_of))]

ghost use Rattle.std.specs.Prelude.{◌≡◌};
ghost use Rattle.refusals.specs.Refusals.{said, ◌leaving◌};
ghost use Rattle.midambles.specs.Calls.{chip_answer, midamble_outcome};

use refusals::Refusal;

// Chip `chip` (from 1) of a user's midamble: its power of j, 0 to 3. Refusals: 1, 2, 3, 4, 10.
pub fn midamble_chip(cell: u32, burst: u32, count: u32, user: u32, chip: u32) -> Result<u8, Refusal>
    ensures { said result ≡ chip_answer cell burst count user chip }
{
    let chips = codes::code_of(burst).length;
    tables::check_user(cell, burst, count, user)?;
    Refusal::OutOfRange.when((chip < 1) | (chip > chips))?;
    let by = codes::shift(burst, user);
    Ok(elements::chip_at(cell, burst, chip, by))
}

// All chips of a user's midamble, into the first 512 (type 2: 256) bytes of `out`; further bytes stay as they are. How many were written. Refusals: 1, 2, 3, 4, 11.
pub fn midamble(
    cell: u32,
    burst: u32,
    count: u32,
    user: u32,
    out: &mut [u8],
) -> Result<u32, Refusal>
    ensures { said result leaving out.new ≡ midamble_outcome cell burst count user out.old }
{
    let length = codes::code_of(burst).length;
    tables::check_user(cell, burst, count, user)?;
    Refusal::ShortMemory.when(out.len() < length as usize)?;
    let by = codes::shift(burst, user);
    elements::fill_chips(cell, burst, by, out);
    Ok(length)
}
