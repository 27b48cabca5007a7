// Which call a line is, and its reply.
ghost use Rattle.std.specs.Prelude.{◌≡◌};
ghost use Rattle.bench.specs.Lines.{named_line, book_after_line};
ghost use Rattle.bench.specs.Inside.{made_by, worded_by, tabled_by};

use crate::book_calls;
use classbook::Book;
use lesson_replies::replies::Reply;
use lesson_replies::{
    air_calls, beacon_calls, card_calls, help, midamble_calls, paging_calls, replies, say,
    summary_calls, timeslot_calls,
};
use lesson_words::numbers::Values;
use lesson_words::{numbers, samples, words};
use printing::{Lines, Outputs};
use refusals::Refusal;

// The calls whose replies are numbers, by their numbers in the table below.
fn numbered(call: u32, v: Values) -> Result<Reply, Refusal> {
    match call {
        6 => midamble_calls::chip(v),
        13 => timeslot_calls::at_chip(v),
        14 => beacon_calls::beacon(v),
        15 => paging_calls::indicator(v),
        _ => paging_calls::owner(v),
    }
}

// The calls that ask and change nothing.
fn asking(out: &mut Lines<'_, impl Outputs>, call: u32, v: Values, row: &[u8], b: &Book) {
    match call {
        4 => book_calls::list(out, v, b),
        5 => summary_calls::summary(out, v, b),
        7 => midamble_calls::midamble(out, v),
        8 => midamble_calls::block(out, v),
        9 => card_calls::pair(out, v),
        10 => card_calls::pairs(out, v),
        12 => timeslot_calls::parts(out, v),
        16 => paging_calls::row(out, false, v, row),
        17 => paging_calls::row(out, true, v, row),
        19 => help::help(out),
        _ => replies::said(out, numbered(call, v)),
    }
}

// A call whose words are as they should be: the first four change the book.
fn made(out: &mut Lines<'_, impl Outputs>, call: u32, v: Values, row: &[u8], b: &mut Book)
    ensures { b.new ≡ made_by call v b.old }
{
    if call < 4 {
        let answer = lesson_book::asked(call, v, b);
        say::done(out, answer);
    } else {
        asking(out, call, v, row, b);
    }
}

// The number of `hear` in the table below: behind the words of its kinds stand samples.
const HEAR: u32 = 11;

// `hear`: its numbers are read, and its samples into a row of as many as a line may have.
fn heard(out: &mut Lines<'_, impl Outputs>, number: u64, kinds: &[u8], rest: &[u8]) {
    let end = words::behind(rest, kinds.len());
    let mut row = [0.0; 1100];
    let line = numbers::read(&rest[..end], kinds);
    let air = samples::read(rest, end, &mut row);
    match (line, air) {
        (Some(line), Some(n)) => air_calls::hear(out, line.values, &row[..n]),
        _ => say::expected(out, number, HEAR),
    }
}

// A call by its number: its words are read, and must be of these kinds.
fn worded(
    out: &mut Lines<'_, impl Outputs>,
    number: u64,
    call: u32,
    kinds: &[u8],
    rest: &[u8],
    b: &mut Book,
)
    ensures { b.new ≡ worded_by call kinds.now rest.now b.old }
{
    if call == HEAR {
        heard(out, number, kinds, rest);
        return;
    }
    match numbers::read(rest, kinds) {
        None => say::expected(out, number, call),
        Some(line) => made(out, call, line.values, &rest[line.from..line.to], b),
    }
}

// A line by its first word, in a table of twenty calls.
fn tabled(
    out: &mut Lines<'_, impl Outputs>,
    number: u64,
    name: &[u8],
    rest: &[u8],
    table: &[u8],
    b: &mut Book,
)
    ensures { b.new ≡ tabled_by table.now name.now rest.now b.old }
{
    match words::look_up(name, table, 20) {
        None => say::unknown(out, number, name),
        Some(call) => worded(
            out,
            number,
            call.number,
            &table[call.from..call.to],
            rest,
            b,
        ),
    }
}

// The table of calls, each with the kinds of its words: `n` a number, `d` a direction, `r` a row; behind those of `hear` stand samples. `help` is the last and has none.
fn named(out: &mut Lines<'_, impl Outputs>, number: u64, name: &[u8], rest: &[u8], b: &mut Book)
    ensures { b.new ≡ named_line name.now rest.now b.old }
{
    tabled(
        out,
        number,
        name,
        rest,
        b"open nnnnnn book nndnnnnnn cancel nnnn close n list n summary nn chip nnnnn midamble nnnn block nnnnnn pair nnnnnn pairs nnnnn hear nnn parts ndnnn at ndnnnn beacon nn indicator nnnn page nnr read nnr owner nnn help",
        b,
    );
}

// The reply to line `number`. A line without words has none.
pub fn answer(out: &mut Lines<'_, impl Outputs>, number: u64, line: &[u8], b: &mut Book)
    ensures { b.new ≡ book_after_line line.now b.old }
{
    let end = words::find(line, 0, b'#');
    let text = &line[..end];
    let w = words::word(text, 0);
    let from = w.from;
    let to = w.to;
    if from == to {
        return;
    }
    named(out, number, &text[from..to], &text[to..], b);
}
