// Document 01, "Paging bits (clause 5.3.7)": where an indicator's bits lie, and how a frame's indicators are written and read.
#![tactic(auto)]

mod frame;

ghost use Rattle.std.specs.Prelude.{◌≡◌};
ghost use Rattle.refusals.specs.Refusals.{said, said_as, ◌leaving◌};
ghost use Rattle.paging.specs.Calls.{said_place, indicator_answer, said_owner, owner_answer, page_outcome, read_page_outcome};

use frame::Frame;
use refusals::Refusal;

// Where an indicator sits: its frame, its number q there, and `length` carrying bits from `first` and from `second`.
#[derive(Clone, Copy, Debug, PartialEq, Eq)]
pub struct IndicatorPlace {
    pub frame: u32,
    pub q: u32,
    pub first: u32,
    pub second: u32,
    pub length: u32,
}

// Where an indicator sits: its frame, its q, and its two runs among the carrying bits. Refusals: 2, 10.
#[tactic(auto, using(refusals::proofs::Numbers::number_not_0), unfolding(crate::specs::Calls::indicator_answer, crate::specs::Calls::indicator_refusals, conditions::specs::Conditions::bad_frames, conditions::specs::Conditions::bad_number, crate::specs::Paging::place_of, refusals::specs::Refusals::first_of, refusals::specs::Refusals::answer, refusals::specs::Refusals::number_of, tables::specs::Tables::pich_refusals))]
pub fn indicator(
    burst: u32,
    length: u32,
    frames: u32,
    number: u32,
) -> Result<IndicatorPlace, Refusal>
    ensures { said_as said_place result ≡ indicator_answer burst length frames number }
{
    let frame = Frame::of(burst, length)?;
    Refusal::OutOfRange.when(conditions::bad_frames(frames))?;
    Refusal::OutOfRange.when(frame.per * frames <= number)?;
    let q = number % frame.per;
    Ok(IndicatorPlace {
        frame: number / frame.per,
        q,
        first: length * q,
        second: frame.half + length * q,
        length,
    })
}

// Which q owns the bit at a place in time order, or none where it is reserved. Refusals: 2, 10.
#[tactic(auto, using(refusals::proofs::Numbers::number_not_0), unfolding(crate::specs::Calls::owner_answer, crate::specs::Calls::owner_refusals, conditions::specs::Conditions::bad_bit, crate::specs::Paging::owner_at, refusals::specs::Refusals::first_of, refusals::specs::Refusals::answer, refusals::specs::Refusals::number_of, tables::specs::Tables::pich_refusals))]
pub fn owner(burst: u32, length: u32, bit: u32) -> Result<Option<u32>, Refusal>
    ensures { said_as said_owner result ≡ owner_answer burst length bit }
{
    let frame = Frame::of(burst, length)?;
    Refusal::OutOfRange.when(frame.bits() <= bit)?;
    let second = frame.half + 4; // where the second half begins
    if bit < frame.half {
        return Ok(Some(bit / length));
    }
    if bit < second {
        return Ok(None);
    }
    Ok(Some((bit - second) / length))
}

// One frame's settings as bits, into the first places of `out`; how many were written. Refusals: 2, 10, 11.
#[tactic(auto, using(refusals::proofs::Numbers::number_not_0), unfolding(crate::specs::Calls::page_outcome, refusals::specs::Refusals::after, conditions::specs::Conditions::too_short, refusals::specs::Refusals::first_of, refusals::specs::Refusals::answer, refusals::specs::Refusals::number_of, tables::specs::Tables::pich_refusals))]
pub fn page(burst: u32, length: u32, settings: &[u8], out: &mut [u8]) -> Result<u32, Refusal>
    ensures { said result leaving out.new ≡ page_outcome burst length settings.now out.old }
{
    let frame = Frame::of(burst, length)?;
    let bits = frame.bits();
    let few_settings = settings.len() < frame.per as usize;
    let no_room = out.len() < bits as usize;
    Refusal::ShortMemory.when(few_settings | no_room)?;
    paging_bits::fill(
        length as usize,
        frame.per as usize,
        frame.half as usize,
        settings,
        out,
    );
    Ok(bits)
}

// One byte for each q, 0 off, 1 on, 2 torn, into the first places of `out`; how many were written. Refusals: 2, 10, 11.
#[tactic(auto, using(refusals::proofs::Numbers::number_not_0), unfolding(crate::specs::Calls::read_page_outcome, refusals::specs::Refusals::after, conditions::specs::Conditions::too_short, refusals::specs::Refusals::first_of, refusals::specs::Refusals::answer, refusals::specs::Refusals::number_of, tables::specs::Tables::pich_refusals))]
pub fn read_page(burst: u32, length: u32, bits: &[u8], out: &mut [u8]) -> Result<u32, Refusal>
    ensures { said result leaving out.new ≡ read_page_outcome burst length bits.now out.old }
{
    let frame = Frame::of(burst, length)?;
    let few_bits = bits.len() < frame.bits() as usize;
    let no_room = out.len() < frame.per as usize;
    Refusal::ShortMemory.when(few_bits | no_room)?;
    paging_bits::scan(
        length as usize,
        frame.per as usize,
        frame.half as usize,
        bits,
        out,
    );
    Ok(frame.per)
}
