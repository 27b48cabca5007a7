// A row out of a table, its digits, and one of its elements. What is public here is so for this crate's other files.
ghost use Rattle.std.specs.Prelude.{◌≡◌, ◌<◌, ◌≤◌, ◌+◌, ◌*◌, ◌/◌, ◌%◌, get_or, take, drop, length};
ghost use Rattle.code_text.specs.Rows.{bit_at};
ghost use Rattle.elements.specs.Elements.{turned};
ghost use Rattle.elements.specs.Inside.{Row, digits_in, element_in};

// A row's bytes, as they were lent: there is at least one, and there are at most 57.
#[derive(Clone, Copy)]
pub struct LentRow<'a> {
    bytes: &'a [u8],
    ghost good: { Row bytes.now },
}

// Row n of a table of 128 rows of w bytes.
pub fn row_of(t: &[u8], w: usize, n: u32) -> LentRow<'_>
    requires { (length t.now ≡ 128 * w) × (1 ≤ w) × (w ≤ 57) × (n < 128) }
    ensures { result.bytes.now ≡ take w (drop (n * w) t.now) }
{
    let start = n as usize * w;
    let end = start + w;
    LentRow {
        bytes: &t[start..end],
    }
}

impl LentRow<'_> {
    // How many digits the row has: two a byte.
    pub fn digits(self) -> usize
        ensures { result ≡ 2 * length self.entry.bytes.now }
    {
        2 * self.bytes.len()
    }

    // Digit g (from 0): two digits a byte, the first of them high.
    pub fn digit_at(self, g: usize) -> u8
        requires { g < 2 * length self.bytes.now }
        ensures { result ≡ get_or (digits_in self.entry.bytes.now) g 0 }
    {
        let b = self.bytes[g / 2];
        (b >> (4 * (1 - g % 2))) % 16
    }

    // The digit that place p (from 0) lies in, four places a digit; beyond its last digit the row repeats.
    pub fn digit_of(self, p: usize) -> u8
        ensures { result ≡ get_or (digits_in self.entry.bytes.now) (p / 4 % (2 * length self.entry.bytes.now)) 0 }
    {
        self.digit_at(p / 4 % self.digits())
    }

    // Bit p (from 0), the highest of a digit first.
    fn bit_in(self, p: usize) -> u8
        ensures { result ≡ bit_at (digits_in self.entry.bytes.now) (p % (8 * length self.entry.bytes.now)) }
    {
        (self.digit_of(p) >> (3 - p % 4)) % 2
    }

    // Element chip + by, as its power of j.
    pub fn element_in(self, chip: u32, by: u32) -> u8
        requires { (1 ≤ chip) × (chip + by < 65536) }
        ensures { result ≡ element_in self.entry.bytes.now (chip + by) }
    {
        let i = chip + by;
        let p = i - 1;
        power_of(i, self.bit_in(p as usize))
    }
}

// Element i of a row as its power of j: bit 1 is +1, bit 0 is -1.
fn power_of(i: u32, bit: u8) -> u8
    requires { (i < 65536) × (bit < 2) }
    ensures { result ≡ turned i bit }
{
    ((i + 2 * (1 - bit as u32)) % 4) as u8
}
