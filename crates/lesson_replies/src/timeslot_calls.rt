// The calls on the parts of a timeslot.
ghost use Rattle.std.specs.Prelude.{◌≡◌};
ghost use Rattle.refusals.specs.Refusals.{said};
ghost use Rattle.lesson_replies.specs.Replies.{symbol_reply, at_asked};

use crate::replies::Reply;
use crate::say;
use lesson_words::numbers;
use lesson_words::numbers::Values;
use printing::{Lines, Outputs};
use refusals::Refusal;
use timeslots::{Layout, Lying, Symbol};

fn layout(out: &mut Lines<'_, impl Outputs>, l: Layout) {
    out.form(
        b"parts #+# #+# #+# #+# #+# #+# #+# bits # #\n",
        0,
        &[
            l.data1.start,
            l.data1.length,
            l.tfci1.start,
            l.tfci1.length,
            l.midamble.start,
            l.midamble.length,
            l.tpc.start,
            l.tpc.length,
            l.tfci2.start,
            l.tfci2.length,
            l.data2.start,
            l.data2.length,
            l.guard.start,
            l.guard.length,
            l.bits1,
            l.bits2,
        ],
    );
}

pub fn parts(out: &mut Lines<'_, impl Outputs>, v: Values) {
    let d = numbers::direction(v.second);
    match timeslots::parts(v.first, d, v.third, v.fourth, v.fifth) {
        Err(refusal) => say::refused(out, refusal),
        Ok(l) => layout(out, l),
    }
}

#[tactic(auto, unfolding(crate::specs::Replies::part_reply, crate::specs::Replies::symbol_reply))]
fn symbol(s: Symbol) -> Reply
    ensures { result ≡ symbol_reply s }
{
    match s {
        Symbol::Data1(n) => Reply::Data1(n),
        Symbol::Tfci1(n) => Reply::Tfci1(n),
        Symbol::Tpc(n) => Reply::Tpc(n),
        Symbol::Tfci2(n) => Reply::Tfci2(n),
        Symbol::Data2(n) => Reply::Data2(n),
    }
}

pub fn at_chip(v: Values) -> Result<Reply, Refusal>
    ensures { said result ≡ at_asked v }
{
    let d = numbers::direction(v.second);
    Ok(
        match timeslots::at(v.first, d, v.third, v.fourth, v.fifth, v.sixth)? {
            Lying::Midamble(n) => Reply::Midamble(n),
            Lying::Guard(n) => Reply::Guard(n),
            Lying::Symbol(s) => symbol(s),
        },
    )
}
