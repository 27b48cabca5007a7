// Of a request that is not refused: how long its parts are, where they lie, and the way back from a chip to its part.
ghost use Rattle.std.specs.Prelude.{◌≡◌, ◌≤◌};
ghost use Rattle.refusals.specs.Refusals.{first_of};
ghost use Rattle.tables.specs.Tables.{parts_refusals};

use crate::lengths::{self, Lengths};
use crate::{Layout, Lying, Span, Symbol};
use conditions::Direction;
use refusals::Refusal;

// What a timeslot's parts depend on, none of it refused.
#[derive(Clone, Copy)]
pub struct Request {
    burst: u32,
    direction: Direction,
    factor: u32,
    tfci: u32,
    tpc: u32,
    ghost accepted: { first_of (parts_refusals burst direction factor tfci tpc) ≡ 0 },
}

impl Request {
    ghost use Rattle.std.specs.Prelude.{IfOk};
    ghost use Rattle.refusals.specs.Refusals.{refusal_in};
    ghost use Rattle.timeslots.specs.Timeslots.{seven_parts, lies_at};
    ghost use Rattle.timeslots.specs.Inside.{IsRequestOf, lengths_of};
    ghost use Rattle.timeslots.specs.Calls.{said_layout, said_lying};

    // Refusals: 2, 6, 7, 8.
    pub fn of(
        burst: u32,
        direction: Direction,
        factor: u32,
        tfci: u32,
        tpc: u32,
    ) -> Result<Request, Refusal>
        ensures refusal { refusal_in result ≡ first_of (parts_refusals burst direction factor tfci tpc) }
        ensures request { IfOk result (IsRequestOf burst direction factor tfci tpc) }
    {
        tables::check_parts(burst, direction, factor, tfci, tpc)?;
        Ok(Request {
            burst,
            direction,
            factor,
            tfci,
            tpc,
        })
    }

    // How long the parts are: control eats into the data field beside it.
    #[tactic(auto, using(crate::proofs::Sizes::request, crate::proofs::Sizes::table, crate::proofs::Sizes::half_high, crate::proofs::Sizes::power_high), unfolding(crate::specs::Inside::lengths_of, crate::specs::Timeslots::part_length, crate::specs::Timeslots::tfci_half, crate::specs::Timeslots::tpc_chips, crate::specs::Timeslots::chips_of_bits))]
    fn lengths(self) -> Lengths
        ensures { result ≡ lengths_of self.burst self.direction self.factor self.tfci self.tpc }
    {
        let control = lengths::control_chips(self.direction, self.factor);
        let half = self.tfci / 2 / 2 * control;
        let power = self.tpc / 2 * control;
        let data1 = lengths::field_length(self.burst, 0);
        let data2 = lengths::field_length(self.burst, 2);
        Lengths {
            data1: data1 - half,
            tfci1: half,
            midamble: lengths::field_length(self.burst, 1),
            tpc: power,
            tfci2: half,
            data2: data2 - (power + half),
            guard: lengths::field_length(self.burst, 3),
        }
    }

    // The seven parts one behind the other: each starts where the part before it ends.
    #[tactic(auto, using(crate::proofs::Sizes::request, crate::proofs::Sizes::lengths_total), unfolding(crate::specs::Inside::lengths_of, crate::specs::Timeslots::seven_parts, crate::specs::Timeslots::part_lengths, crate::specs::Timeslots::order, crate::specs::Timeslots::spans, crate::specs::Timeslots::bits_of_chips, crate::specs::Calls::said_layout))]
    pub fn placed(self) -> Layout
        ensures { said_layout result ≡ seven_parts self.burst self.direction self.factor self.tfci self.tpc }
    {
        let l = self.lengths();
        let to_midamble = l.data1 + l.tfci1;
        let to_power = to_midamble + l.midamble;
        let to_tfci2 = to_power + l.tpc;
        let to_data2 = to_tfci2 + l.tfci2;
        let to_guard = to_data2 + l.data2;
        Layout {
            data1: Span {
                start: 0,
                length: l.data1,
            },
            tfci1: Span {
                start: l.data1,
                length: l.tfci1,
            },
            midamble: Span {
                start: to_midamble,
                length: l.midamble,
            },
            tpc: Span {
                start: to_power,
                length: l.tpc,
            },
            tfci2: Span {
                start: to_tfci2,
                length: l.tfci2,
            },
            data2: Span {
                start: to_data2,
                length: l.data2,
            },
            guard: Span {
                start: to_guard,
                length: l.guard,
            },
            bits1: l.data1 / self.factor * 2,
            bits2: l.data2 / self.factor * 2,
        }
    }

    // What lies at a chip: the first part that reaches beyond it, else the guard.
    #[tactic(auto, using(crate::proofs::Sizes::request, crate::proofs::Sizes::control_low), unfolding(crate::specs::Timeslots::lies_at, crate::specs::Timeslots::lies, crate::specs::Timeslots::unit, crate::specs::Inside::lengths_of, crate::specs::Inside::behind_midamble))]
    pub fn lies_at(self, chip: u32) -> Lying
        ensures { said_lying result ≡ lies_at self.burst self.direction self.factor self.tfci self.tpc chip }
    {
        let control = lengths::control_chips(self.direction, self.factor);
        let l = self.lengths();
        if chip < l.data1 {
            return Lying::Symbol(Symbol::Data1(chip / self.factor));
        }
        let left = chip - l.data1;
        if left < l.tfci1 {
            return Lying::Symbol(Symbol::Tfci1(left / control));
        }
        let left = left - l.tfci1;
        if left < l.midamble {
            return Lying::Midamble(left);
        }
        l.behind_midamble(left - l.midamble, self.factor, control)
    }
}
