// The call on who is on the air.
ghost use Rattle.std.specs.Prelude.{◌≡◌};
ghost use Rattle.refusals.specs.Refusals.{said_as};
ghost use Rattle.hearing.specs.Calls.{heard_meant};
ghost use Rattle.lesson_replies.specs.Replies.{hear_asked};

use crate::say;
use hearing::Heard;
use lesson_words::numbers::Values;
use printing::{Lines, Outputs};
use refusals::Refusal;
use std::fmt::Write;

// `hear CELL TYPE COUNT SAMPLE ..`
#[tactic(auto, unfolding(crate::specs::Replies::hear_asked))]
fn who(v: Values, row: &[f32]) -> Result<Heard, Refusal>
    ensures { said_as heard_meant result ≡ hear_asked v row.now }
{
    hearing::hear(v.first, v.second, v.third, row)
}

pub fn hear(out: &mut Lines<'_, impl Outputs>, v: Values, row: &[f32]) {
    match who(v, row) {
        Err(refusal) => say::refused(out, refusal),
        Ok(Heard::Nobody) => out.word(b"nobody\n"),
        Ok(Heard::User(k, re, im)) => {
            let _ = write!(out, "user {k}");
            say::wholes(out, b"", &[re, im], 2);
        }
    }
}
