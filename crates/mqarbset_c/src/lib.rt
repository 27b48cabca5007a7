// The C interface as a static library: each export of include/mqarbset.h, under its C name. Each only calls the function of the crate mqarbset that has its name, and states its
// clauses again. A slice passes as a pointer and then a length.
#![tactic(auto)]

ghost use Rattle.std.specs.Prelude.{◌≡◌};
ghost use Rattle.midambles.specs.Calls.{chip_answer, midamble_outcome};
ghost use Rattle.refusal_words.specs.Words.{words_outcome};
ghost use Rattle.mqarbset_answers.specs.Answers.{answer_as_c, outcome_as_c};
ghost use Rattle.signal_card.specs.Calls.{pair_answer, pairs_outcome};
ghost use Rattle.mqarbset_answers.specs.Pairs.{pair_as_c};
ghost use Rattle.blocks.specs.Calls.{start_answer, block_outcome};
ghost use Rattle.mqarbset_answers.specs.Blocks.{held_as_place, start_as_c, block_outcome_as_c};
ghost use Rattle.beacons.specs.Calls.{beacon_answer};
ghost use Rattle.mqarbset_answers.specs.Parts.{parts_as_c, place_as_c, beacons_as_c};
ghost use Rattle.mqarbset.specs.Calls.{parts_answer_over_c, at_answer_over_c};
ghost use Rattle.paging.specs.Calls.{indicator_answer, owner_answer, page_outcome, read_page_outcome};
ghost use Rattle.mqarbset_answers.specs.Pages.{indicator_as_c, owner_as_c};
ghost use Rattle.hearing.specs.Calls.{hear_answer};
ghost use Rattle.mqarbset_answers.specs.Air.{heard_as_c};
ghost use Rattle.classbook.specs.Book.{empty_book};
ghost use Rattle.classbook.specs.Calls.{open_answer, cancel_answer, close_answer};
ghost use Rattle.mqarbset_answers.specs.Summaries.{summary_as_c};
ghost use Rattle.mqarbset_book.specs.Mirror.{read_book, write_book};
ghost use Rattle.mqarbset_book.specs.Calls.{handed_back, book_answer_over_c};
ghost use Rattle.mqarbset_list.specs.Records.{records_outcome};
ghost use Rattle.summaries.specs.Summaries.{summary_answer};
ghost use Rattle.mqarbset.specs.Version.{version, book_size};

use mqarbset_answers::MqAnswer;
use mqarbset_answers::air::MqHear;
use mqarbset_answers::at_a_glance::MqSummary;
use mqarbset_answers::by_block::{MqBlock, MqBlockPlace, MqBlockStart};
use mqarbset_answers::pages::{MqIndicator, MqOwner};
use mqarbset_answers::pairs::MqPair;
use mqarbset_answers::parts::{MqBeacons, MqParts, MqPlace};
use mqarbset_book::{MqBook, MqBookAnswer};

// Chip `chip` (from 1) of a user's midamble: its power of j, 0 to 3. Refusals: 1, 2, 3, 4, 10.
#[unsafe(no_mangle)]
pub extern "C" fn mq_midamble_chip(
    cell: u32,
    burst: u32,
    count: u32,
    user: u32,
    chip: u32,
) -> MqAnswer
    ensures { result ≡ answer_as_c (chip_answer cell burst count user chip) }
{
    mqarbset::mq_midamble_chip(cell, burst, count, user, chip)
}

// All chips of a user's midamble, into the first 512 (type 2: 256) bytes of `out`; further bytes stay as they are. The value is how many bytes were
// written. Refusals: 1, 2, 3, 4, 11.
#[unsafe(no_mangle)]
pub extern "C" fn mq_midamble(
    cell: u32,
    burst: u32,
    count: u32,
    user: u32,
    out: &mut [u8],
) -> MqAnswer
    ensures { (result, out.new) ≡ outcome_as_c (midamble_outcome cell burst count user out.old) }
{
    mqarbset::mq_midamble(cell, burst, count, user, out)
}

// The words of a refusal number as ASCII bytes, into the first places of `out`; further bytes stay as they are. The value is how many bytes were written, 0 for a
// number that is no refusal's. Refusal: 11.
#[unsafe(no_mangle)]
pub extern "C" fn mq_refusal_text(number: u32, out: &mut [u8]) -> MqAnswer
    ensures { (result, out.new) ≡ outcome_as_c (words_outcome number out.old) }
{
    mqarbset::mq_refusal_text(number, out)
}

// Chip `chip` (from 1) of a user's midamble at a level: its real part and its imaginary part. Refusals: 1, 2, 3, 4, 10, 22.
#[unsafe(no_mangle)]
pub extern "C" fn mq_pair(
    cell: u32,
    burst: u32,
    count: u32,
    user: u32,
    chip: u32,
    level: u32,
) -> MqPair
    ensures { result ≡ pair_as_c (pair_answer cell burst count user chip level) }
{
    mqarbset::pairs::mq_pair(cell, burst, count, user, chip, level)
}

// All chips of a user's midamble at a level, real then imaginary, into the first 1,024 (type 2: 512) floats of `out`; further floats stay as they are. The value is how
// many floats were written. Refusals: 1, 2, 3, 4, 11, 22.
#[unsafe(no_mangle)]
pub extern "C" fn mq_pairs(
    cell: u32,
    burst: u32,
    count: u32,
    user: u32,
    level: u32,
    out: &mut [f32],
) -> MqAnswer
    ensures { (result, out.new) ≡ outcome_as_c (pairs_outcome cell burst count user level out.old) }
{
    mqarbset::pairs::mq_pairs(cell, burst, count, user, level, out)
}

// The place before the first chip of a user's midamble. Refusals: 1, 2, 3, 4.
#[unsafe(no_mangle)]
pub extern "C" fn mq_block_start(cell: u32, burst: u32, count: u32, user: u32) -> MqBlockStart
    ensures { result ≡ start_as_c (start_answer cell burst count user) }
{
    mqarbset::by_block::mq_block_start(cell, burst, count, user)
}

// The chips from a place on, as many as block and midamble have left, into the first bytes of `out`; further bytes stay as they are. How many were written, and the
// place behind them; refused, the place that was handed in. Refusals: 1, 2, 3, 4, 23.
#[unsafe(no_mangle)]
pub extern "C" fn mq_block_value(place: MqBlockPlace, out: &mut [u8]) -> MqBlock
    ensures { (result, out.new) ≡ block_outcome_as_c (block_outcome (held_as_place place) out.old) }
{
    mqarbset::by_block::mq_block_value(place, out)
}

// Where the seven parts of a timeslot lie; direction 0 is up, 1 is down. Refusals: 2, 6, 7, 8; 6 also for a direction that is neither.
#[unsafe(no_mangle)]
pub extern "C" fn mq_parts(burst: u32, direction: u32, factor: u32, tfci: u32, tpc: u32) -> MqParts
    ensures { result ≡ parts_as_c (parts_answer_over_c burst direction factor tfci tpc) }
{
    mqarbset::parts::mq_parts(burst, direction, factor, tfci, tpc)
}

// What lies at a chip of a timeslot, 0 to 2559. Refusals: 2, 6, 7, 8, 10; 6 also for a direction that is neither.
#[unsafe(no_mangle)]
pub extern "C" fn mq_at(
    burst: u32,
    direction: u32,
    factor: u32,
    tfci: u32,
    tpc: u32,
    chip: u32,
) -> MqPlace
    ensures { result ≡ place_as_c (at_answer_over_c burst direction factor tfci tpc chip) }
{
    mqarbset::parts::mq_at(burst, direction, factor, tfci, tpc, chip)
}

// The beacon timeslots of a synchronisation case and its k. Refusal: 9.
#[unsafe(no_mangle)]
pub extern "C" fn mq_beacon(case: u32, k: u32) -> MqBeacons
    ensures { result ≡ beacons_as_c (beacon_answer case k) }
{
    mqarbset::parts::mq_beacon(case, k)
}

// Where a paging indicator sits. Refusals: 2, 10.
#[unsafe(no_mangle)]
pub extern "C" fn mq_indicator(burst: u32, length: u32, frames: u32, number: u32) -> MqIndicator
    ensures { result ≡ indicator_as_c (indicator_answer burst length frames number) }
{
    mqarbset::pages::mq_indicator(burst, length, frames, number)
}

// Which indicator owns the bit at a place in time order, or that it is reserved. Refusals: 2, 10.
#[unsafe(no_mangle)]
pub extern "C" fn mq_owner(burst: u32, length: u32, bit: u32) -> MqOwner
    ensures { result ≡ owner_as_c (owner_answer burst length bit) }
{
    mqarbset::pages::mq_owner(burst, length, bit)
}

// One frame's settings as bits, into the first 244 (type 2: 276) bytes of `out`; further bytes stay as they are. The value is how many bytes were written. Refusals: 2, 10, 11.
#[unsafe(no_mangle)]
pub extern "C" fn mq_page(burst: u32, length: u32, settings: &[u8], out: &mut [u8]) -> MqAnswer
    ensures { (result, out.new) ≡ outcome_as_c (page_outcome burst length settings.now out.old) }
{
    mqarbset::pages::mq_page(burst, length, settings, out)
}

// One byte for each indicator q, 0 off, 1 on, 2 torn, into the first places of `out`; further bytes stay as they are. The value is how many were written. Refusals: 2, 10, 11.
#[unsafe(no_mangle)]
pub extern "C" fn mq_read_page(burst: u32, length: u32, bits: &[u8], out: &mut [u8]) -> MqAnswer
    ensures { (result, out.new) ≡ outcome_as_c (read_page_outcome burst length bits.now out.old) }
{
    mqarbset::pages::mq_read_page(burst, length, bits, out)
}

// Who is on the air in a cell, by burst type and count, in the first 1,024 (type 2: 512) floats of `row`, real then imaginary, chip after chip. Refusals: 1, 2, 3, 11, 24.
#[unsafe(no_mangle)]
pub extern "C" fn mq_hear(cell: u32, burst: u32, count: u32, row: &[f32]) -> MqHear
    ensures { result ≡ heard_as_c (hear_answer cell burst count row.now) }
{
    mqarbset::air::mq_hear(cell, burst, count, row)
}

// An empty book: no seat is open.
#[unsafe(no_mangle)]
pub extern "C" fn mq_empty_book() -> MqBook
    ensures { result ≡ write_book empty_book }
{
    mqarbset::book::mq_empty_book()
}

// Opens a seat with a cell parameter, a synchronisation case and its k, and a long and a short count. Refusals: 1, 3, 9, 12, 13, 15.
#[unsafe(no_mangle)]
pub extern "C" fn mq_open_value(
    b: MqBook,
    seat: u32,
    cell: u32,
    case: u32,
    k: u32,
    long: u32,
    short: u32,
) -> MqBookAnswer
    ensures { result ≡ handed_back b (open_answer (read_book b) seat cell case k long short) }
{
    mqarbset::book::mq_open_value(b, seat, cell, case, k, long, short)
}

// Books a code in a timeslot for a seat; direction 0 is up, 1 is down. Refusals: 2, 4 to 8, 12 to 14, 16 to 20; 6 also for a direction that is neither.
#[unsafe(no_mangle)]
pub extern "C" fn mq_book_value(
    b: MqBook,
    seat: u32,
    timeslot: u32,
    direction: u32,
    burst: u32,
    factor: u32,
    index: u32,
    user: u32,
    tfci: u32,
    tpc: u32,
) -> MqBookAnswer
    ensures { result ≡ handed_back b (book_answer_over_c (read_book b) seat timeslot direction burst factor index user tfci tpc) }
{
    mqarbset::book::mq_book_value(
        b, seat, timeslot, direction, burst, factor, index, user, tfci, tpc,
    )
}

// Cancels the booking of a seat that is named by timeslot and code. Refusals: 5, 6, 12, 13, 14, 21.
#[unsafe(no_mangle)]
pub extern "C" fn mq_cancel_value(
    b: MqBook,
    seat: u32,
    timeslot: u32,
    factor: u32,
    index: u32,
) -> MqBookAnswer
    ensures { result ≡ handed_back b (cancel_answer (read_book b) seat timeslot factor index) }
{
    mqarbset::book::mq_cancel_value(b, seat, timeslot, factor, index)
}

// Closes a seat: its bookings and its settings go. Refusals: 12, 13, 14.
#[unsafe(no_mangle)]
pub extern "C" fn mq_close_value(b: MqBook, seat: u32) -> MqBookAnswer
    ensures { result ≡ handed_back b (close_answer (read_book b) seat) }
{
    mqarbset::book::mq_close_value(b, seat)
}

// Lists a seat's bookings in records of eight bytes: timeslot, direction, type, factor, index, user, TFCI and TPC bits. The value is how many were written; further
// bytes stay as they are. Refusals: 11 (below 320 bytes, which are 40 records), 12, 13, 14.
#[unsafe(no_mangle)]
pub extern "C" fn mq_list_bytes(b: MqBook, seat: u32, out: &mut [u8]) -> MqAnswer
    ensures { (result, out.new) ≡ outcome_as_c (records_outcome (read_book b) seat out.old) }
{
    mqarbset::book::mq_list_bytes(b, seat, out)
}

// Which codes of a timeslot a seat has free: the leaves that its bookings cover, leaf l being bit 2^l, their direction (0 up, 1 down, 2 none) and their number.
// Refusals: 5, 12, 13, 14.
#[unsafe(no_mangle)]
pub extern "C" fn mq_summary_value(b: MqBook, seat: u32, timeslot: u32) -> MqSummary
    ensures { result ≡ summary_as_c (summary_answer (read_book b) seat timeslot) }
{
    mqarbset::book::mq_summary_value(b, seat, timeslot)
}

// The version of the library: major times 10000, minor times 100, patch.
#[unsafe(no_mangle)]
pub extern "C" fn mq_version() -> u32
    ensures { result ≡ version }
{
    mqarbset::version::mq_version()
}

// The bytes of a class book.
#[unsafe(no_mangle)]
pub extern "C" fn mq_book_bytes() -> u32
    ensures { result ≡ book_size }
{
    mqarbset::version::mq_book_bytes()
}
