// What the words behind a call's name stand for: numbers, directions, and rows of the digits 0 and 1. A line's words are read once, by `read`.
ghost use Rattle.std.specs.Prelude.{◌≡◌, true, false, ◌+◌, ◌-◌, ◌*◌, ◌≤◌, length, set, leb, MatchOption};
ghost use Rattle.lesson_words.specs.Numbers.{is_digit, value_if, numeral_of, turn_of, row_of, meant_by, fits, nine_of, values_of, direction_by};

use crate::words;
use conditions::Direction;

#[tactic(auto, unfolding(crate::specs::Numbers::is_digit))]
fn is_digit(b: u8) -> bool
    ensures { result ≡ is_digit b }
{
    (b >= b'0') & (b <= b'9')
}

// A number with one digit more behind it, if it is not too large.
#[tactic(auto, unfolding(crate::specs::Numbers::value_if))]
fn grown(value: u32, digit: u8) -> Option<u32>
    requires { 48 ≤ digit }
    ensures { result ≡ value_if (leb (value * 10 + (digit - 48)) 4294967295) (value * 10 + (digit - 48)) }
{
    value.checked_mul(10)?.checked_add(u32::from(digit - b'0'))
}

// One or more of the digits 0 to 9, of at most 4294967295. Public for `samples`.
pub fn number(word: &[u8]) -> Option<u32>
    ensures { result ≡ numeral_of word.now }
{
    if word.is_empty() {
        return None;
    }
    let mut value = 0;
    for &b in word {
        if !is_digit(b) {
            return None;
        }
        value = grown(value, b)?;
    }
    Some(value)
}

// One or more of the digits 0 and 1: a row has no value, so 0 stands for it.
fn row(word: &[u8]) -> Option<u32>
    ensures { result ≡ row_of word.now }
{
    let bits = word.iter().all(|&b| (b == b'0') | (b == b'1'));
    (!word.is_empty() & bits).then_some(0)
}

// `up` or `down`.
fn turn(word: &[u8]) -> Option<u32>
    ensures { result ≡ turn_of word.now }
{
    if word == b"down".as_slice() {
        Some(1)
    } else if word == b"up".as_slice() {
        Some(0)
    } else {
        None
    }
}

// Kinds of words: `n` a number, `d` a direction, and any other letter a row.
#[tactic(auto, unfolding(crate::specs::Numbers::meant_by))]
fn meant(word: &[u8], kind: u8) -> Option<u32>
    ensures { result ≡ meant_by kind word.now }
{
    match kind {
        b'n' => number(word),
        b'd' => turn(word),
        _ => row(word),
    }
}

// A value into its place, if there is one.
fn store(values: &mut [u32], i: usize, value: u32)
    ensures { values.new ≡ set values.old i value }
{
    if i < values.len() {
        values[i] = value;
    }
}

// What the words of a line stand for, in their order.
#[derive(Clone, Copy)]
pub struct Values {
    pub first: u32,
    pub second: u32,
    pub third: u32,
    pub fourth: u32,
    pub fifth: u32,
    pub sixth: u32,
    pub seventh: u32,
    pub eighth: u32,
    pub ninth: u32,
}

// Nine places by name.
impl From<[u32; 9]> for Values {
    ghost from_gives = { λ v r. r ≡ nine_of v };

    #[tactic(auto, unfolding(crate::specs::Numbers::nine_of))]
    fn from(v: [u32; 9]) -> Values {
        Values {
            first: v[0],
            second: v[1],
            third: v[2],
            fourth: v[3],
            fifth: v[4],
            sixth: v[5],
            seventh: v[6],
            eighth: v[7],
            ninth: v[8],
        }
    }
}

// What the words behind a call's name stand for, whether or not they are those that the call wants: 0 for a word that is not what is expected. `read` says it of a line that fits.
pub fn values_in(text: &[u8], kinds: &[u8]) -> Values
    ensures { result ≡ values_of kinds.now text.now }
{
    let mut places = [0; 9];
    let mut to = 0;
    for (i, &kind) in kinds.iter().enumerate() {
        let w = words::word(text, to);
        to = w.to;
        let value = meant(&text[w.from..w.to], kind).unwrap_or(0);
        store(&mut places, i, value);
    }
    Values::from(places)
}

// The words of a line, where they are those that a call wants: what each stands for, and where the last of them stands.
#[derive(Clone, Copy)]
pub struct Line {
    pub values: Values,
    pub from: usize,
    pub to: usize,
}

// Reads the words behind a call's name, as many as the call wants and of the kinds that it wants.
pub fn read(text: &[u8], kinds: &[u8]) -> Option<Line>
    ensures { MatchOption result (fits kinds.now text.now ≡ false) (λ line. (fits kinds.now text.now ≡ true) × (line.values ≡ values_of kinds.now text.now) × (line.from ≤ line.to) × (line.to ≤ length text.now)) }
{
    let mut places = [0; 9];
    let mut from = 0;
    let mut to = 0;
    for (i, &kind) in kinds.iter().enumerate() {
        let w = words::word(text, to);
        from = w.from;
        to = w.to;
        let value = meant(&text[from..to], kind)?;
        store(&mut places, i, value);
    }
    let behind = words::word(text, to);
    if behind.to - behind.from != 0 {
        return None;
    }
    let values = Values::from(places);
    Some(Line { values, from, to })
}

// A direction by its value.
#[tactic(auto, unfolding(crate::specs::Numbers::direction_by, crate::specs::Numbers::direction_if))]
pub fn direction(value: u32) -> Direction
    ensures { result ≡ direction_by value }
{
    if value == 1 {
        Direction::Down
    } else {
        Direction::Up
    }
}
