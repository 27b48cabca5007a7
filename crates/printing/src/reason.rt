// Why a read or a write failed, in the system's words.
ghost use Rattle.std.specs.Prelude.{◌≤◌, length};

use std::io;
use std::io::{Eprint, Write};

// How many of the first bytes are the system's words: those before ` (os error 28)`, which `io::Error` puts behind them, or before bytes that were not written.
fn words(text: &[u8]) -> usize
    ensures { result ≤ length text.now }
{
    for (i, &b) in text.iter().enumerate() {
        if b == 0 {
            return i;
        }
        let rest = &text[i..];
        if rest.starts_with(b" (os error ") {
            return i;
        }
    }
    text.len()
}

// What failed, a colon and why, as in `bench: standard output: No space left on device`.
pub fn say(rt: &impl Eprint, what: &str, error: &io::Error) {
    let mut text = [0u8; 96];
    let mut room = &mut text[..];
    let _ = write!(room, "{error}");
    let n = words(&text);
    let why = str::from_utf8(&text[..n]).unwrap_or("");
    let _ = eprintln!(rt; "{what}: {why}");
}
