// The answer about a chip for the signal card over C.
ghost use Rattle.std.specs.Prelude.{◌≡◌};
ghost use Rattle.refusals.specs.Refusals.{said_as};
ghost use Rattle.signal_card.specs.Calls.{parts_of};
ghost use Rattle.mqarbset_answers.specs.Pairs.{pair_as_c};

use refusals::Refusal;
use signal_card::ComplexChip;

// One complex chip at a level: its real part and its imaginary part.
#[repr(C)]
#[derive(Clone, Copy)]
pub struct MqPair {
    pub refusal: u32,
    pub re: f32,
    pub im: f32,
}

// A chip at a level.
impl From<Result<ComplexChip, Refusal>> for MqPair {
    ghost from_gives = { λ r y. y ≡ pair_as_c (said_as parts_of r) };

    #[tactic(auto, using(crate::proofs::Zero::plain), unfolding(crate::specs::Pairs::pair_as_c))]
    fn from(r: Result<ComplexChip, Refusal>) -> MqPair {
        match r {
            Ok(c) => MqPair {
                refusal: 0,
                re: c.re,
                im: c.im,
            },
            Err(refusal) => MqPair {
                refusal: refusal.number(),
                re: 0.0,
                im: 0.0,
            },
        }
    }
}
