// Midambles by the block (document 02, C-15): a place in a midamble, and lent blocks that are filled from there, one after another.
#![tactic(auto, unfolding(crate::specs::Blocks::block_of, crate::specs::Blocks::place_behind, crate::specs::Calls::start_answer, crate::specs::Calls::block_outcome, refusals::specs::Refusals::answer, refusals::specs::Refusals::after))]

ghost use Rattle.std.specs.Prelude.{◌≡◌, ◌++◌, ◌+◌, ◌<◌, ◌≤◌, length, take, drop};
ghost use Rattle.refusals.specs.Refusals.{◌leaving◌, first_of, said, refusal_in};
ghost use Rattle.codes.specs.Codes.{code_of};
ghost use Rattle.blocks.specs.Blocks.{to_come, block_of, place_behind};
ghost use Rattle.blocks.specs.Calls.{start_answer, block_refusals, block_outcome};

use refusals::Refusal;

// A place in a midamble: cell parameter, burst type, count and user, and how many of its chips are written already.
#[derive(Clone, Copy, Debug, PartialEq, Eq)]
pub struct Place {
    pub cell: u32,
    pub burst: u32,
    pub count: u32,
    pub user: u32,
    pub written: u32,
}

impl Place {
    // Moves behind so many chips more.
    fn advance(&mut self, chips: u32)
        requires { self.old.written + chips ≤ 512 }
        ensures { self.new ≡ place_behind self.old chips }
    {
        self.written += chips;
    }
}

// The place before the first chip of a user's midamble. Refusals: 1, 2, 3, 4.
#[tactic(auto, using(midambles::proofs::Answers::user_steps), unfolding(crate::specs::Calls::start_answer, refusals::specs::Refusals::answer))]
pub fn start(cell: u32, burst: u32, count: u32, user: u32) -> Result<Place, Refusal>
    ensures { said result ≡ start_answer cell burst count user }
{
    tables::check_user(cell, burst, count, user)?;
    Ok(Place {
        cell,
        burst,
        count,
        user,
        written: 0,
    })
}

// The first refusal of a block at a place, if any.
#[tactic(auto, using(midambles::proofs::Answers::user_steps), unfolding(crate::specs::Calls::block_refusals, conditions::specs::Conditions::bad_place, refusals::specs::Refusals::first_of, refusals::specs::Refusals::number_of))]
fn check_place(place: &Place) -> Result<(), Refusal>
    ensures { refusal_in result ≡ first_of (block_refusals place.now) }
{
    let length = codes::code_of(place.burst).length;
    tables::check_user(place.cell, place.burst, place.count, place.user)?;
    Refusal::BlockPlace.when(conditions::bad_place(length, place.written))
}

// How many chips go into a block of `room` bytes: as many as block and midamble have left.
#[tactic(auto, using(crate::proofs::Chips::length_fitting))]
fn fitting(place: &Place, room: usize) -> u32
    requires { place.now.written ≤ (code_of place.now.burst).length }
    ensures { result ≡ length (take room (to_come place.now)) }
{
    let left = codes::code_of(place.burst).length - place.written;
    room.min(left as usize) as u32
}

// So many chips from a place on, into the first bytes of `out`. Where there are none, no table is fetched.
fn fill(place: &Place, chips: u32, out: &mut [u8])
    requires { (place.now.cell < 128) × (1 ≤ place.now.user) × (place.now.written ≤ (code_of place.now.burst).length) × (chips ≡ length (block_of place.now out.old)) }
    ensures { out.new ≡ block_of place.now out.old ++ drop chips out.old }
{
    if chips == 0 {
        return;
    }
    let by = codes::shift(place.burst, place.user) + place.written;
    elements::fill_elements(place.cell, place.burst, by, chips as usize, out);
}

// The chips from a place on, as many as block and midamble have left, into the first bytes of `out`; further bytes stay as they are. How many were written: the place is then behind them.
// Refused, it stays where it was. Refusals: 1, 2, 3, 4, 23.
#[tactic(auto, using(midambles::proofs::Answers::answer_number, midambles::proofs::Answers::after_number, crate::proofs::Answers::block_steps), unfolding(crate::specs::Blocks::block_of, crate::specs::Blocks::place_behind, crate::specs::Calls::block_outcome, refusals::specs::Refusals::answer, refusals::specs::Refusals::after))]
pub fn block(place: &mut Place, out: &mut [u8]) -> Result<u32, Refusal>
    ensures { said result leaving (place.new, out.new) ≡ block_outcome place.old out.old }
{
    check_place(place)?;
    let chips = fitting(place, out.len());
    fill(place, chips, out);
    place.advance(chips);
    Ok(chips)
}
