// The answers of documents 01 and 02 as the structs of the C interface: each call's result turned into the struct.
#![tactic(auto)]

pub mod air;
pub mod at_a_glance;
pub mod by_block;
pub mod pages;
pub mod pairs;
pub mod parts;

ghost use Rattle.std.specs.Prelude.{◌≡◌};
ghost use Rattle.refusals.specs.Refusals.{said};
ghost use Rattle.mqarbset_answers.specs.Answers.{answer_as_c};

use refusals::Refusal;

// What a call answers over C: the refusal's number, or 0 where it answered; the value, or 0 where it refused.
#[repr(C)]
#[derive(Clone, Copy)]
pub struct MqAnswer {
    pub refusal: u32,
    pub value: u32,
}

// How many bytes, chips or floats were written.
impl From<Result<u32, Refusal>> for MqAnswer {
    ghost from_gives = { λ r y. y ≡ answer_as_c (said r) };

    #[tactic(auto, unfolding(crate::specs::Answers::answer_as_c))]
    fn from(r: Result<u32, Refusal>) -> MqAnswer {
        match r {
            Ok(value) => MqAnswer { refusal: 0, value },
            Err(refusal) => MqAnswer {
                refusal: refusal.number(),
                value: 0,
            },
        }
    }
}

// A chip's power of j.
impl From<Result<u8, Refusal>> for MqAnswer {
    ghost from_gives = { λ r y. y ≡ answer_as_c (said r) };

    #[tactic(auto, unfolding(crate::specs::Answers::answer_as_c))]
    fn from(r: Result<u8, Refusal>) -> MqAnswer {
        MqAnswer::from(r.map(u32::from))
    }
}
