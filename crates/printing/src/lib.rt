// Lines for standard output: bytes are gathered in a buffer of 4096, which is written out whenever it is full; `flush` writes the rest. Where standard output takes no more,
// that is said once on standard error, and nothing is written from then on. No call asks anything.
#![tactic(auto)]

mod reason;

ghost use Rattle.std.specs.Prelude.{◌≡◌, true, not, ◌≤◌};

use itoa::Buffer;
use std::fs::OpenOptions;
use std::io::{Eprint, Print, Write};
use std::rt::Files;
use std::{fmt, io};

// What a line may need of the runtime: standard output, standard error, and the file at descriptor 200.
pub trait Outputs: Print + Eprint + Files {}

impl<R: Print + Eprint + Files> Outputs for R {}

// A byte for `./bench`, which listens at descriptor 200: something was no call, or failed. Where nobody listens, nothing comes of it.
pub fn complain(rt: &impl Outputs) {
    let _ = byte_to_listener(rt);
}

// A descriptor is reached by its number as the file that /proc names. It is also opened for reading, since a pipe that nobody reads would be waited for.
fn byte_to_listener(rt: &impl Outputs) -> io::Result<()> {
    let mut listener = OpenOptions::new()
        .read(true)
        .append(true)
        .open(rt, "/proc/self/fd/200")?;
    listener.write_all(b"x")
}

// What failed goes to standard error, with the reason, and `./bench` hears of it.
pub fn fail(rt: &impl Outputs, what: &str, error: &io::Error) {
    reason::say(rt, what, error);
    complain(rt);
}

// The bytes that are gathered, and whether standard output takes them.
#[derive(Drop)]
pub struct Lines<'a, R: Outputs> {
    rt: &'a R,
    bytes: [u8; 4096],
    held: usize,
    takes: bool,

    ghost room: { held ≤ 4096 },
}

impl<'a, R: Outputs> Lines<'a, R> {
    pub fn new(rt: &'a R) -> Lines<'a, R>
        ensures { result.takes ≡ true }
    {
        Lines {
            rt,
            bytes: [0; 4096],
            held: 0,
            takes: true,
        }
    }

    // Standard output takes no more.
    pub fn is_closed(&self) -> bool
        ensures { result ≡ not self.now.takes }
    {
        !self.takes
    }

    // As `complain`.
    pub fn complain(&self) {
        complain(self.rt);
    }

    // As `fail`.
    pub fn fail(&self, what: &str, error: &io::Error) {
        fail(self.rt, what, error);
    }

    // Writes out the bytes that are gathered.
    pub fn flush(&mut self)
        ensures { self.new.held ≡ 0 }
    {
        if self.takes {
            if let Err(error) = self.rt.write_all(&self.bytes[..self.held]) {
                self.fail("bench: standard output", &error);
                self.takes = false;
            }
        }
        self.held = 0;
    }

    // One byte.
    pub fn put(&mut self, b: u8) {
        if self.held == 4096 {
            self.flush();
        }
        self.bytes[self.held] = b;
        self.held += 1;
    }

    // The bytes of a text.
    pub fn word(&mut self, text: &[u8]) {
        for &byte in text {
            self.put(byte);
        }
    }

    // The first `count` bytes of a row, or all that it has, with `base` added to each: 48 makes the digits 0 to 9 of the values 0 to 9.
    pub fn row(&mut self, bytes: &[u8], count: u32, base: u8) {
        let end = count as usize;
        for &b in bytes.iter().take(end) {
            self.put(base.wrapping_add(b));
        }
    }

    // A number in decimal.
    pub fn number(&mut self, value: u64) {
        let mut buffer = Buffer::new();
        self.word(buffer.format(value).as_bytes());
    }

    // A float without its fraction, in decimal; `?` where it is -1 or less, beyond 64 bits or no number.
    fn size(&mut self, x: f32) {
        if -1.0 < x {
            if x < 18446744073709551616.0 {
                self.number(std::num::truncating_f32_to_u64(x));
                return;
            }
        }
        self.put(b'?');
    }

    // A float that is a whole number, in decimal: a minus sign stands before a negative one, and before minus zero.
    fn whole(&mut self, x: f32) {
        if (x < 0.0) | (1.0 / x < 0.0) {
            self.put(b'-');
            self.size(-x);
        } else {
            self.size(x);
        }
    }

    // The first `count` floats of a row, or all that it has, as whole numbers with a blank before each.
    pub fn wholes(&mut self, row: &[f32], count: u32) {
        let end = count as usize;
        for &x in row.iter().take(end) {
            self.put(b' ');
            self.whole(x);
        }
    }

    // Line `line` of a text of forms, counted from 0, with its LF if it has one: each `#` stands for the next number, in decimal.
    pub fn form(&mut self, text: &[u8], line: u32, numbers: &[u32]) {
        let mut left = line;
        let mut numbers = numbers.iter();
        for &b in text {
            if left == 0 {
                if b != b'#' {
                    self.put(b);
                } else if let Some(&number) = numbers.next() {
                    self.number(u64::from(number));
                }
                if b == b'\n' {
                    return;
                }
            } else if b == b'\n' {
                left -= 1;
            }
        }
    }
}

// What is formatted goes to the buffer as it is.
impl<R: Outputs> fmt::Write for Lines<'_, R> {
    fn write_str(&mut self, s: &str) -> fmt::Result {
        self.word(s.as_bytes());
        Ok(())
    }
}
