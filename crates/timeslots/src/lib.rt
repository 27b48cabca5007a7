// Document 01, "Parts of a timeslot (clause 5.2.2)": where the seven parts lie, and what lies at a chip.
#![tactic(auto)]

mod lengths;
mod request;

ghost use Rattle.std.specs.Prelude.{◌≡◌};
ghost use Rattle.refusals.specs.Refusals.{said_as};
ghost use Rattle.timeslots.specs.Calls.{said_layout, parts_answer, said_lying, at_answer};

use conditions::Direction;
use refusals::Refusal;
use request::Request;

// A part of the timeslot: its first chip and its length in chips.
#[derive(Clone, Copy, Debug, PartialEq, Eq)]
pub struct Span {
    pub start: u32,
    pub length: u32,
}

// The seven parts in time order, and the bits of both data parts.
#[derive(Clone, Copy, Debug, PartialEq, Eq)]
pub struct Layout {
    pub data1: Span,
    pub tfci1: Span,
    pub midamble: Span,
    pub tpc: Span,
    pub tfci2: Span,
    pub data2: Span,
    pub guard: Span,
    pub bits1: u32,
    pub bits2: u32,
}

// A symbol's part, and its number in that part from 0.
#[derive(Clone, Copy, Debug, PartialEq, Eq)]
pub enum Symbol {
    Data1(u32),
    Data2(u32),
    Tfci1(u32),
    Tfci2(u32),
    Tpc(u32),
}

// What lies at a chip: midamble or guard with the offset in it from 0, or a symbol.
#[derive(Clone, Copy, Debug, PartialEq, Eq)]
pub enum Lying {
    Midamble(u32),
    Guard(u32),
    Symbol(Symbol),
}

// Where the seven parts of a timeslot lie, and the bits of both data parts. Refusals: 2, 6, 7, 8.
#[tactic(auto, using(refusals::proofs::First::refused_by, refusals::proofs::First::answered_by, refusals::proofs::Numbers::number_not_0), unfolding(crate::specs::Calls::parts_answer))]
pub fn parts(
    burst: u32,
    direction: Direction,
    factor: u32,
    tfci: u32,
    tpc: u32,
) -> Result<Layout, Refusal>
    ensures { said_as said_layout result ≡ parts_answer burst direction factor tfci tpc }
{
    Ok(Request::of(burst, direction, factor, tfci, tpc)?.placed())
}

// What lies at a chip of a timeslot. Refusals: 2, 6, 7, 8, 10.
#[tactic(auto, using(crate::proofs::Answers::at_refused, crate::proofs::Answers::at_beyond, crate::proofs::Answers::at_answered, refusals::proofs::Numbers::number_not_0), unfolding(refusals::specs::Refusals::number_of))]
pub fn at(
    burst: u32,
    direction: Direction,
    factor: u32,
    tfci: u32,
    tpc: u32,
    chip: u32,
) -> Result<Lying, Refusal>
    ensures { said_as said_lying result ≡ at_answer burst direction factor tfci tpc chip }
{
    let request = Request::of(burst, direction, factor, tfci, tpc)?;
    Refusal::OutOfRange.when(chip > 2559)?;
    Ok(request.lies_at(chip))
}
