// Replies. Each call puts one whole line into the buffer of output.
use printing::{Lines, Outputs};
use refusals::Refusal;
use std::fmt::Write;

// `refused N: ` and the words of the number.
pub fn refused(out: &mut Lines<'_, impl Outputs>, refusal: Refusal) {
    let number = refusal.number();
    let _ = write!(out, "refused {number}: ");
    let mut text = [0; 255];
    if let Ok(n) = refusal_words::words(number, &mut text) {
        out.row(&text, n, 0);
    }
    out.put(b'\n');
}

// `ok`, or a refusal.
pub fn done(out: &mut Lines<'_, impl Outputs>, answer: Result<(), Refusal>) {
    match answer {
        Err(refusal) => refused(out, refusal),
        Ok(()) => out.word(b"ok\n"),
    }
}

// What somebody who types sees before each line.
pub fn prompt(out: &mut Lines<'_, impl Outputs>, typed: bool) {
    if typed {
        out.word(b"> ");
    }
}

// A line of a lesson with its number, as it stands before its reply.
pub fn echoed(out: &mut Lines<'_, impl Outputs>, number: u64, line: &[u8]) {
    let _ = write!(out, "{number}> ");
    out.word(line);
    out.put(b'\n');
}

// A word and the first values of a row as digits with no blanks between.
pub fn digits(out: &mut Lines<'_, impl Outputs>, word: &[u8], values: &[u8], count: u32) {
    out.word(word);
    out.row(values, count, b'0');
    out.put(b'\n');
}

// `block`, how many values, and behind a blank the values as digits; nothing behind 0.
pub fn counted(out: &mut Lines<'_, impl Outputs>, values: &[u8], count: u32) {
    if count == 0 {
        out.word(b"block 0\n");
        return;
    }
    let _ = write!(out, "block {count} ");
    digits(out, b"", values, count);
}

// A word and the first floats of a row as whole numbers, parted by blanks.
pub fn wholes(out: &mut Lines<'_, impl Outputs>, word: &[u8], row: &[f32], count: u32) {
    out.word(word);
    out.wholes(row, count);
    out.put(b'\n');
}

// What is said of a line that is no call: `line N` and a text. `./bench` hears of it.
pub fn no_call(out: &mut Lines<'_, impl Outputs>, number: u64, text: &[u8]) {
    out.complain();
    let _ = write!(out, "line {number}");
    out.word(text);
}

// Whether the first two bytes are a byte order mark of UTF-16.
fn sixteen(word: &[u8]) -> bool {
    word.starts_with(b"\xff\xfe") | word.starts_with(b"\xfe\xff")
}

// A line whose first word is no call's.
pub fn unknown(out: &mut Lines<'_, impl Outputs>, number: u64, word: &[u8]) {
    if (number == 1) & sixteen(word) {
        no_call(out, number, b": this is UTF-16; save the lesson as UTF-8\n");
    } else {
        no_call(out, number, b": unknown word; 'help' lists the calls\n");
    }
}

// A line whose words are not those of its call, by the call's number: what was expected.
pub fn expected(out: &mut Lines<'_, impl Outputs>, number: u64, call: u32) {
    no_call(out, number, b": expected: ");
    out.form(
        b"open SEAT CELL CASE K LONG SHORT\n\
            book SEAT SLOT up|down TYPE FACTOR INDEX USER TFCI TPC\n\
            cancel SEAT SLOT FACTOR INDEX\n\
            close SEAT\n\
            list SEAT\n\
            summary SEAT SLOT\n\
            chip CELL TYPE COUNT USER I\n\
            midamble CELL TYPE COUNT USER\n\
            block CELL TYPE COUNT USER PLACE LENGTH\n\
            pair CELL TYPE COUNT USER I LEVEL\n\
            pairs CELL TYPE COUNT USER LEVEL\n\
            hear CELL TYPE COUNT SAMPLE ..\n\
            parts TYPE up|down FACTOR TFCI TPC\n\
            at TYPE up|down FACTOR TFCI TPC CHIP\n\
            beacon CASE K\n\
            indicator TYPE L F PI\n\
            page TYPE L SETTINGS (digits 0 and 1)\n\
            read TYPE L BITS (digits 0 and 1)\n\
            owner TYPE L BIT\n\
            help\n",
        call,
        &[],
    );
}
