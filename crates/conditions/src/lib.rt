// Document 01, "Refusal numbers", and document 02's 22 and 23: the conditions on numbers, in the order of their numbers; and up and down. The tables made of them: the crate tables.
#![tactic(auto, unfolding(crate::specs::Conditions::is_down, crate::specs::Conditions::bad_cell, crate::specs::Conditions::bad_type, crate::specs::Conditions::bad_count, crate::specs::Conditions::bad_user, crate::specs::Conditions::bad_booked_user, crate::specs::Conditions::bad_timeslot, crate::specs::Conditions::bad_factor, crate::specs::Conditions::bad_code, crate::specs::Conditions::bad_down_factor, crate::specs::Conditions::bad_down_type, crate::specs::Conditions::bad_control, crate::specs::Conditions::bad_beacon, crate::specs::Conditions::bad_pich, crate::specs::Conditions::bad_frames, crate::specs::Conditions::bad_level, crate::specs::Conditions::bad_place))]

ghost use Rattle.std.specs.Prelude.{eqb, ◌||◌, ◌≡◌};
ghost use Rattle.conditions.specs.Conditions.{is_down, bad_cell, bad_type, bad_count, bad_user, bad_booked_user, bad_timeslot, bad_factor, bad_code, bad_down_factor, bad_down_type, bad_control, bad_beacon, bad_pich, bad_frames, bad_level, bad_place};

// Of a timeslot or a booking: up or down, there is no third.
#[derive(Clone, Copy, Debug, PartialEq, Eq)]
pub enum Direction {
    Up,
    Down,
}

impl Direction {
    pub fn is_down(self) -> bool
        ensures { result ≡ is_down self }
    {
        self == Direction::Down
    }
}

// 1: the cell parameter is above 127.
pub fn bad_cell(cell: u32) -> bool
    ensures { result ≡ bad_cell cell }
{
    cell > 127
}

// 2: the burst type is not 1, 2 or 3.
pub fn bad_type(burst: u32) -> bool
    ensures { result ≡ bad_type burst }
{
    (burst < 1) | (burst > 3)
}

// 3: the midamble count is not 4, 8 or 16, of type 2 not 3 or 6.
pub fn bad_count(burst: u32, count: u32) -> bool
    ensures { result ≡ bad_count burst count }
{
    if burst == 2 {
        return !((count == 3) | (count == 6));
    }
    !((count == 4) | (count == 8) | (count == 16))
}

// 4, where the call names the count, and 16, by the seat's: the count does not permit the user.
pub fn bad_user(burst: u32, count: u32, user: u32) -> bool
    ensures { result ≡ bad_user burst count user }
{
    !codes::permits(burst, count, user)
}

// 4, in a booking: the user is outside 1 to 16, of type 2 outside 1 to 6.
pub fn bad_booked_user(burst: u32, user: u32) -> bool
    ensures { result ≡ bad_booked_user burst user }
{
    if burst == 2 {
        return (user < 1) | (user > 6);
    }
    (user < 1) | (user > 16)
}

// 5: the timeslot is above 14.
pub fn bad_timeslot(timeslot: u32) -> bool
    ensures { result ≡ bad_timeslot timeslot }
{
    timeslot > 14
}

// 6: the factor is not 1, 2, 4, 8 or 16.
pub fn bad_factor(factor: u32) -> bool
    ensures { result ≡ bad_factor factor }
{
    !matches!(factor, 1 | 2 | 4 | 8 | 16)
}

// 6, of a code: a bad factor, or an index outside 1 to the factor.
pub fn bad_code(factor: u32, index: u32) -> bool
    ensures { result ≡ bad_code factor index }
{
    bad_factor(factor) | ((index < 1) | (index > factor))
}

// 6: downlink with a factor other than 1 or 16.
pub fn bad_down_factor(direction: Direction, factor: u32) -> bool
    ensures { result ≡ bad_down_factor direction factor }
{
    direction.is_down() & !((factor == 1) | (factor == 16))
}

// 7: type 3 in downlink.
pub fn bad_down_type(direction: Direction, burst: u32) -> bool
    ensures { result ≡ bad_down_type direction burst }
{
    direction.is_down() & (burst == 3)
}

// "TFCI bits .. 0, 4, 8, 16, 32"
fn fits_tfci(tfci: u32) -> bool
    ensures { result ≡ (eqb tfci 0 || eqb tfci 4 || eqb tfci 8 || eqb tfci 16 || eqb tfci 32) }
{
    matches!(tfci, 0 | 4 | 8 | 16 | 32)
}

// 8: TFCI bits not 0, 4, 8, 16 or 32; TPC bits not 0 or 2; TPC 2 in downlink.
pub fn bad_control(direction: Direction, tfci: u32, tpc: u32) -> bool
    ensures { result ≡ bad_control direction tfci tpc }
{
    !fits_tfci(tfci) | !((tpc == 0) | (tpc == 2)) | (direction.is_down() & (tpc == 2))
}

// 9: the synchronisation case is not 1 or 2, or k is above 14 (case 1) or above 6 (case 2).
pub fn bad_beacon(case: u32, k: u32) -> bool
    ensures { result ≡ bad_beacon case k }
{
    !((case == 1) | (case == 2)) | ((case == 1) & (k > 14)) | ((case == 2) & (k > 6))
}

// 10: type 3 has no PICH, and an indicator is 2, 4 or 8 symbols long.
pub fn bad_pich(burst: u32, length: u32) -> bool
    ensures { result ≡ bad_pich burst length }
{
    (burst == 3) | !((length == 2) | (length == 4) | (length == 8))
}

// 10: the frames per block are not 1 to 4.
pub fn bad_frames(frames: u32) -> bool
    ensures { result ≡ bad_frames frames }
{
    (frames < 1) | (frames > 4)
}

// 22: the level is not 1 to 2047.
pub fn bad_level(level: u32) -> bool
    ensures { result ≡ bad_level level }
{
    (level < 1) | (level > 2047)
}

// 23: more chips are written already than a midamble of that length has.
pub fn bad_place(length: u32, written: u32) -> bool
    ensures { result ≡ bad_place length written }
{
    written > length
}
