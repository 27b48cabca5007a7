// The table of fields, how long a control symbol is, and the lengths of the parts.
ghost use Rattle.std.specs.Prelude.{◌≡◌, ◌≤◌, ◌<◌};
ghost use Rattle.timeslots.specs.Timeslots.{field_length, control_chips};
ghost use Rattle.timeslots.specs.Inside.{behind_midamble};
ghost use Rattle.timeslots.specs.Calls.{said_lying};

use crate::{Lying, Symbol};
use conditions::Direction;

// Burst type by field, in chips: data 1, midamble, data 2, guard.
const FIELDS: [[u32; 4]; 3] = [
    [976, 512, 976, 96],
    [1104, 256, 1104, 96],
    [976, 512, 880, 192],
];

// The length of a field of a burst type.
#[tactic(auto, unfolding(crate::specs::Timeslots::field_length, crate::specs::Timeslots::fields))]
pub fn field_length(burst: u32, field: usize) -> u32
    requires { (1 ≤ burst) × (burst ≤ 3) × (field < 4) }
    ensures { result ≡ field_length burst field }
{
    let row = (burst - 1) as usize;
    FIELDS[row][field]
}

// The chips of a control symbol: always 16 in uplink, the data's factor in downlink.
#[tactic(auto, unfolding(crate::specs::Timeslots::control_chips))]
pub fn control_chips(direction: Direction, factor: u32) -> u32
    ensures { result ≡ control_chips direction factor }
{
    match direction {
        Direction::Up => 16,
        Direction::Down => factor,
    }
}

// The lengths of the seven parts, in time order.
#[derive(Clone, Copy)]
pub struct Lengths {
    pub data1: u32,
    pub tfci1: u32,
    pub midamble: u32,
    pub tpc: u32,
    pub tfci2: u32,
    pub data2: u32,
    pub guard: u32,
}

impl Lengths {
    // What lies behind the midamble, so many chips from its end, where a data symbol takes `factor` chips and a control symbol `control`.
    #[tactic(auto, unfolding(crate::specs::Inside::behind_midamble))]
    pub fn behind_midamble(self, left: u32, factor: u32, control: u32) -> Lying
        requires { (1 ≤ factor) × (1 ≤ control) }
        ensures { said_lying result ≡ behind_midamble left self.tpc self.tfci2 self.data2 factor control }
    {
        if left < self.tpc {
            return Lying::Symbol(Symbol::Tpc(left / control));
        }
        let left = left - self.tpc;
        if left < self.tfci2 {
            return Lying::Symbol(Symbol::Tfci2(left / control));
        }
        let left = left - self.tfci2;
        if left < self.data2 {
            return Lying::Symbol(Symbol::Data2(left / factor));
        }
        Lying::Guard(left - self.data2)
    }
}
