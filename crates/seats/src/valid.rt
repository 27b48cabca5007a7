// Whether a seat meets its conditions.
ghost use Rattle.std.specs.Prelude.{◌≡◌, not, ◌&&◌, eqb};
ghost use Rattle.std.specs.List.{list_all, zip};
ghost use Rattle.laws.specs.Lists.{every, chain, pairs, matches};
ghost use Rattle.bookings.specs.Bookings.{clash, comes};
ghost use Rattle.slots.specs.Slots.{same_slot, summary_of};
ghost use Rattle.seats.specs.Seats.{is_blank, is_bare, good_settings, stands_in, bookings, seat_ok};

use crate::Seat;
use bookings::Booking;
use slots::Slot;

// All its numbers as one of as many bytes as a booking has in memory, which is 0 where its place is blank.
fn number_of(x: Booking) -> u64
    ensures { eqb result 0 ≡ is_blank x }
{
    let down = x.direction.is_down();
    let control = (x.tfci as u64) + (x.tpc as u64) * 256;
    let code = (x.factor as u64)
        + ((x.index as u64) + ((x.user as u64) + control * 256) * 256) * 256;
    (x.timeslot as u64) + ((down as u64) + ((x.burst as u64) + code * 256) * 256) * 256
}

// Whether a booking may stand in a seat, its other bookings left out.
#[tactic(auto, using(crate::proofs::Passing::passed_number), unfolding(crate::specs::Seats::stands))]
fn may_stand(s: &Seat, x: Booking) -> bool
    ensures { result ≡ stands_in s.now x }
{
    bookings::check_form(x).is_ok()
        && (!crate::rules::not_permitted(s.long, s.short, x)
            && !crate::rules::off_beacon(s.case, s.k, x))
}

// Whether each booking may stand, no two clash and each comes before its neighbour, and the summary kept is what they say.
// Each is tested against what those before it say of its timeslot, and joins them; its key lies behind that of the one before it. Neighbours are enough for the order
// of all pairs: bookings/proofs/Order.antt.
fn row_ok(s: &Seat) -> bool
    ensures { result ≡ (every (stands_in s.now) (bookings s.now) && ((pairs (λ x y. not (clash x y)) (bookings s.now) && matches same_slot s.now.slots (summary_of (bookings s.now))) && chain comes (bookings s.now))) }
{
    let row = s.bookings();
    let mut made = [slots::no_slot(); 15];
    let mut ok = true;
    let mut next: u32 = 0;
    let mut sorted = true;
    for &x in row {
        if !may_stand(s, x) {
            return false;
        }
        let t = x.timeslot as usize;
        let there = made[t];
        ok = ok & !slots::hits(there, x);
        made[t] = slots::joined(there, x);
        let key = bookings::key_of(x);
        sorted = sorted & (next <= key);
        next = key + 1;
    }
    (ok & same_slots(&s.slots, &made)) & sorted
}

// Whether two summaries say the same.
fn same_slots(a: &[Slot; 15], b: &[Slot; 15]) -> bool
    ensures { result ≡ list_all (λ p. same_slot p.0 p.1) (zip a.now b.now) }
{
    a.iter().zip(b).all(|(x, y)| slots::same_slot(*x, *y))
}

// Whether every place of these is blank. Their numbers are joined bit by bit, which takes several at a time; a test that stops at the first would not.
fn all_blank(rest: &[Booking]) -> bool
    ensures { result ≡ every is_blank rest.now }
{
    let mut all: u64 = 0;
    for x in rest {
        all = all | number_of(*x);
    }
    all == 0
}

// A closed seat has no settings and holds nothing.
#[tactic(auto, unfolding(crate::specs::Seats::is_bare))]
fn is_bare(s: &Seat) -> bool
    ensures { result ≡ is_bare s.now }
{
    !s.live
        & ((s.cell == 0)
            & ((s.case == 0) & ((s.k == 0) & ((s.long == 0) & ((s.short == 0) & (s.count == 0))))))
}

// An open seat's settings pass 1, 3 (no 0 left) and 9.
#[tactic(auto, using(crate::proofs::Passing::passed_number), unfolding(crate::specs::Seats::good_settings))]
fn settings_pass(s: &Seat) -> bool
    ensures { result ≡ good_settings s.now }
{
    let passed = tables::check_settings(
        u32::from(s.cell),
        u32::from(s.case),
        u32::from(s.k),
        u32::from(s.long),
        u32::from(s.short),
    );
    passed.is_ok()
}

// Whether a seat meets its conditions.
pub fn seat_ok(s: &Seat) -> bool
    ensures { result ≡ seat_ok s.now }
{
    let bare = is_bare(s);
    let good = settings_pass(s);
    let fit = row_ok(s) & all_blank(s.rest());
    (bare | (s.live & good)) & ((s.count <= 40) & fit)
}
