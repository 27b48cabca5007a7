// The program `bench`: one call a line on standard input, one reply each on standard output (docs/LESSONS.md). The calls are those of the proved crates.
// Here lines are gathered and handed on by their first word, and what comes back is printed; the words are read by `lesson_words`. Replies are written out before each wait for input.
// The program's exit status is 0 whatever it reads: what is no call, and what can't be read or written, `printing` tells `./bench`.
#![tactic(auto)]

mod book_calls;
mod calls;
mod lines;

ghost use Rattle.std.specs.Prelude.{◌≤◌, length, IfSome};

use lesson_replies::say;
use lesson_words::words;
use lines::Session;
use printing::{Lines, Outputs};
use std::io::{IsTerminal, Read};
use std::rt::Env;

// The next byte of the input, if one comes.
fn byte(input: &mut impl Read) -> Option<u8> {
    let mut one = [0; 1];
    match input.read(&mut one) {
        Ok(0) | Err(_) => None,
        Ok(_) => Some(one[0]),
    }
}

// A byte order mark of UTF-8.
const MARK: [u8; 3] = [239, 187, 191];

// Passes over such a mark at the start of the input. Where there is none, the bytes that were read to see it stand in `first`, and it answers how many;
// no more are read than that takes.
fn behind_mark(input: &mut impl Read, first: &mut [u8; 3]) -> usize
    ensures { result ≤ 3 }
{
    for i in 0..3 {
        let Some(b) = byte(input) else { return i };
        first[i] = b;
        if b != MARK[i] {
            return i + 1;
        }
    }
    0
}

// Whether there is the argument `--echo`.
fn echo_asked(rt: &impl Env) -> bool {
    let mut word = [0; 8];
    match rt.arg(1, &mut word) {
        Ok(n) => &word[..n] == b"--echo".as_slice(),
        Err(_) => false,
    }
}

// A session has begun: no mark stands before its first line, where the input may have one, as it may where nobody types.
fn begun(
    out: &mut Lines<'_, impl Outputs>,
    input: &mut impl Read,
    terminal: bool,
    echo: bool,
) -> Session {
    let mut s = Session::start(echo);
    if !terminal {
        let mut first = [0; 3];
        let n = behind_mark(input, &mut first);
        s.block(out, &first[..n]);
    }
    s
}

// Whether the first word of a line is `quit`.
fn quits(bytes: &[u8]) -> bool {
    let end = words::find(bytes, 0, b'\n');
    let text = &bytes[..end];
    let w = words::word(text, 0);
    &text[w.from..w.to] == b"quit".as_slice()
}

// Reads once and says how many bytes came, 0 at the end of the input; `None` where output can't be written, where input can't be read, which is said, and where somebody types `quit`.
fn next(
    out: &Lines<'_, impl Outputs>,
    input: &mut impl Read,
    block: &mut [u8],
    typed: bool,
) -> Option<usize>
    ensures { IfSome result (λ n. n ≤ length block.new) }
{
    if out.is_closed() {
        return None;
    }
    match input.read(block) {
        Ok(n) => {
            if typed & quits(&block[..n]) {
                return None;
            }
            Some(n)
        }
        Err(error) => {
            out.fail("bench: standard input", &error);
            None
        }
    }
}

// Writes out the replies, and a prompt where somebody types, reads once, and answers every line that ends in what came; and so on until nothing more comes, or nothing more
// is to be answered. At the end of the input a line may stand that has no LF; what is left of one anywhere else is none.
// Nothing says that the input ends, and a proved loop has to: it counts its reads up to a number that no run reaches.
fn all(
    out: &mut Lines<'_, impl Outputs>,
    input: &mut impl Read,
    block: &mut [u8; 65536],
    s: &mut Session,
    typed: bool,
) {
    for _ in 0..u64::MAX {
        say::prompt(out, typed);
        out.flush();
        match next(out, input, block, typed) {
            None => return,
            Some(0) => return s.last(out),
            Some(n) => s.block(out, &block[..n]),
        }
    }
}

fn main(rt: HostRuntime) {
    let mut input = rt.stdin();
    let terminal = input.is_terminal();
    // whether somebody types, and sees the replies
    let typed = terminal & rt.stdout().is_terminal();
    let mut block = [0; 65536];
    let mut out = Lines::new(&rt);
    let mut s = begun(&mut out, &mut input, terminal, echo_asked(&rt));
    all(&mut out, &mut input, &mut block, &mut s, typed);
    out.flush();
}
