// The answer about who is on the air over C.
ghost use Rattle.std.specs.Prelude.{◌≡◌};
ghost use Rattle.refusals.specs.Refusals.{said_as};
ghost use Rattle.hearing.specs.Calls.{heard_meant};
ghost use Rattle.mqarbset_answers.specs.Air.{heard_as_c};

use hearing::Heard;
use refusals::Refusal;

// Who is heard: a user with the real and the imaginary sum; user 0 is nobody.
#[repr(C)]
#[derive(Clone, Copy)]
pub struct MqHear {
    pub refusal: u32,
    pub user: u32,
    pub re: f32,
    pub im: f32,
}

// Who is on the air.
impl From<Result<Heard, Refusal>> for MqHear {
    ghost from_gives = { λ r y. y ≡ heard_as_c (said_as heard_meant r) };

    #[tactic(auto, using(crate::proofs::Zero::plain), unfolding(crate::specs::Air::heard_as_c))]
    fn from(r: Result<Heard, Refusal>) -> MqHear {
        match r {
            Ok(Heard::User(k, x, y)) => MqHear {
                refusal: 0,
                user: k,
                re: x,
                im: y,
            },
            Ok(Heard::Nobody) => MqHear {
                refusal: 0,
                user: 0,
                re: 0.0,
                im: 0.0,
            },
            Err(refusal) => MqHear {
                refusal: refusal.number(),
                user: 0,
                re: 0.0,
                im: 0.0,
            },
        }
    }
}
