// The calls on training sequences.
ghost use Rattle.std.specs.Prelude.{◌≡◌};
ghost use Rattle.refusals.specs.Refusals.{◌leaving◌, said};
ghost use Rattle.lesson_replies.specs.Replies.{chip_asked, bytes_lent, block_asked};

use crate::replies::Reply;
use crate::say;
use blocks::Place;
use lesson_words::numbers::Values;
use printing::{Lines, Outputs};
use refusals::Refusal;

pub fn chip(v: Values) -> Result<Reply, Refusal>
    ensures { said result ≡ chip_asked v }
{
    let power = midambles::midamble_chip(v.first, v.second, v.third, v.fourth, v.fifth)?;
    Ok(Reply::Chip(u32::from(power)))
}

pub fn midamble(out: &mut Lines<'_, impl Outputs>, v: Values) {
    let mut chips = [0; 512];
    match midambles::midamble(v.first, v.second, v.third, v.fourth, &mut chips) {
        Err(refusal) => say::refused(out, refusal),
        Ok(n) => say::digits(out, b"midamble ", &chips, n),
    }
}

// How many bytes are lent for a block: as many as the line says, but no more than there are.
fn bytes_lent(length: u32, room: usize) -> usize
    ensures { result ≡ bytes_lent length room }
{
    room.min(length as usize)
}

// `block CELL TYPE COUNT USER PLACE LENGTH`
#[tactic(auto, unfolding(crate::specs::Replies::block_asked))]
fn filled(v: Values, out: &mut [u8]) -> (Result<u32, Refusal>, Place)
    ensures { said result.0 leaving (result.1, out.new) ≡ block_asked v out.old }
{
    let mut place = Place {
        cell: v.first,
        burst: v.second,
        count: v.third,
        user: v.fourth,
        written: v.fifth,
    };
    let answer = blocks::block(&mut place, out);
    (answer, place)
}

// The same as a line, with room for the chips.
fn filled_line(out: &mut Lines<'_, impl Outputs>, v: Values, chips: &mut [u8]) {
    let lent = bytes_lent(v.sixth, chips.len());
    let (answer, _) = filled(v, &mut chips[..lent]);
    match answer {
        Err(refusal) => say::refused(out, refusal),
        Ok(n) => say::counted(out, chips, n),
    }
}

pub fn block(out: &mut Lines<'_, impl Outputs>, v: Values) {
    let mut chips = [0; 512];
    filled_line(out, v, &mut chips);
}
