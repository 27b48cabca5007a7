// A run of a row's elements, written into lent memory (document 02, C-14): it starts and ends anywhere, and each digit is read once for its four elements.
// Public for this crate's root, whose functions lend a row.
ghost use Rattle.std.specs.Prelude.{◌≡◌, ◌++◌, ◌<◌, ◌≤◌, ◌+◌, ◌-◌, ◌*◌, ◌%◌, drop, length};
ghost use Rattle.elements.specs.Inside.{elements_after, four_of, fours_of};

use crate::reading::LentRow;

// The powers of j of each digit's four elements: the highest bit first, bit 1 is +1 and bit 0 is -1. They are the same wherever the digit stands, since four divides the period.
const POWERS: [[u8; 4]; 16] = [
    [3, 0, 1, 2], // digit 0
    [3, 0, 1, 0], // digit 1
    [3, 0, 3, 2], // digit 2
    [3, 0, 3, 0], // digit 3
    [3, 2, 1, 2], // digit 4
    [3, 2, 1, 0], // digit 5
    [3, 2, 3, 2], // digit 6
    [3, 2, 3, 0], // digit 7
    [1, 0, 1, 2], // digit 8
    [1, 0, 1, 0], // digit 9
    [1, 0, 3, 2], // digit A
    [1, 0, 3, 0], // digit B
    [1, 2, 1, 2], // digit C
    [1, 2, 1, 0], // digit D
    [1, 2, 3, 2], // digit E
    [1, 2, 3, 0], // digit F
];

// All of them, to be lent: a constant is written to the stack at every call that names it.
fn digit_powers() -> [[u8; 4]; 16]
    ensures { result ≡ fours_of 16 }
{
    POWERS
}

// A row that is read, and the powers of its digits.
#[derive(Clone, Copy)]
struct Source<'a> {
    row: LentRow<'a>,
    powers: &'a [[u8; 4]; 16],
    ghost all: { powers.now ≡ fours_of 16 },
}

impl Source<'_> {
    // A whole digit's four elements, into the first places of `out`.
    fn put_four(&self, digit: u8, out: &mut [u8])
        requires { (digit < 16) × (4 ≤ length out.old) }
        ensures { out.new ≡ four_of digit ++ drop 4 out.old }
    {
        let powers = self.powers;
        out[..4].copy_from_slice(&powers[digit as usize]);
    }

    // A piece of one digit: as many elements as `count`, the first of them element by + 1, and none of them in the next digit.
    fn fill_piece(&self, by: usize, count: usize, out: &mut [u8])
        requires { (by % 4 + count ≤ 4) × (count ≤ length out.old) }
        ensures { out.new ≡ elements_after self.now.row.bytes.now by count out.old }
    {
        if count == 0 {
            return;
        }
        let powers = self.powers;
        let digit = self.row.digit_of(by) as usize;
        let passed = by % 4;
        out[..count].copy_from_slice(&powers[digit][passed..passed + count]);
    }

    // Whole digits from digit g on, all before the row's end: each is read once.
    fn fill_stretch(&self, g: usize, digits: usize, out: &mut [u8])
        requires { (g + digits ≤ 2 * length self.now.row.bytes.now) × (4 * digits ≤ length out.old) }
        ensures { out.new ≡ elements_after self.now.row.bytes.now (4 * g) (4 * digits) out.old }
    {
        for k in 0..digits {
            let digit = self.row.digit_at(g + k);
            self.put_four(digit, &mut out[4 * k..]);
        }
    }

    // Whole digits from digit g on: up to the row's end, then from its first digit again.
    fn fill_digits(&self, g: usize, digits: usize, out: &mut [u8])
        requires { 4 * digits ≤ length out.old }
        ensures { out.new ≡ elements_after self.now.row.bytes.now (4 * g) (4 * digits) out.old }
    {
        let all = self.row.digits();
        let mut at = g % all;
        let mut done: usize = 0;
        while done < digits {
            let some = (all - at).min(digits - done);
            self.fill_stretch(at, some, &mut out[4 * done..]);
            done += some;
            at = 0;
        }
    }
}

// How many elements after element `by` stand before the next digit begins, remainder by remainder: none where `by` ends a digit.
fn before_digit(by: usize) -> usize
    ensures { result ≡ (4 - by % 4) % 4 }
{
    let passed = by % 4;
    match passed {
        0 => 0,
        1 => 3,
        2 => 2,
        _ => 1,
    }
}

// As many elements as `count`, the first of them element by + 1, into the first places of `out`: a piece of the digit that was begun, whole digits, and a piece of the last.
pub fn fill_from(row: LentRow<'_>, by: u32, count: usize, out: &mut [u8])
    requires { count ≤ length out.old }
    ensures { out.new ≡ elements_after row.entry.bytes.now by count out.old }
{
    let powers = digit_powers();
    let source = Source {
        row,
        powers: &powers,
    };
    let by = by as usize;
    let first = before_digit(by).min(count);
    source.fill_piece(by, first, out);
    let digits = (count - first) / 4;
    source.fill_digits((by + first) / 4, digits, &mut out[first..]);
    let done = first + 4 * digits;
    source.fill_piece(by + done, count - done, &mut out[done..]);
}
