// Lines end in LF; words are what stands between blanks, up to a comment (docs/LESSONS.md, "Lines").
// No call of document 01: public for the crate bench, which asks from a place within the text.
ghost use Rattle.std.specs.Prelude.{◌≡◌, ◌+◌, ◌-◌, ◌<◌, ◌≤◌, [], length, take, drop, IfNone, IfSome};
ghost use Rattle.lesson_words.specs.Words.{is_byte, is_blank_byte, is_ink, until, word_in, rest_of};
ghost use Rattle.lesson_words.specs.Inside.{number_in, kinds_in, behind_words};

// The first place from `from` on that holds a byte, or the end. Public for the crate bench.
pub fn find(bytes: &[u8], from: usize, byte: u8) -> usize
    requires { from ≤ length bytes.now }
    ensures { (result ≤ length bytes.now) × (result ≡ from + until (is_byte byte) (drop from bytes.now)) }
{
    match bytes[from..].iter().position(|&b| b == byte) {
        Some(passed) => from + passed,
        None => bytes.len(),
    }
}

// Space, tab and CR.
#[tactic(auto, unfolding(crate::specs::Words::is_blank_byte))]
fn is_blank(b: u8) -> bool
    ensures { result ≡ is_blank_byte b }
{
    (b == b' ') | ((b == b'\t') | (b == b'\r'))
}

// The first place from `from` on that holds no blank, or the end.
fn word_start(text: &[u8], from: usize) -> usize
    requires { from ≤ length text.now }
    ensures { (result ≤ length text.now) × (result ≡ from + until is_ink (drop from text.now)) }
{
    match text[from..].iter().position(|&b| !is_blank(b)) {
        Some(blanks) => from + blanks,
        None => text.len(),
    }
}

// The first place from `from` on that holds a blank, or the end.
fn word_end(text: &[u8], from: usize) -> usize
    requires { from ≤ length text.now }
    ensures { (result ≤ length text.now) × (result ≡ from + until is_blank_byte (drop from text.now)) }
{
    match text[from..].iter().position(|&b| is_blank(b)) {
        Some(inked) => from + inked,
        None => text.len(),
    }
}

// Where a word stands: its first place, and the place behind it.
#[derive(Clone, Copy)]
pub struct Span {
    pub from: usize,
    pub to: usize,
}

// The first word from a place on; nothing, at the end of the text, where there is none. Public for the crate bench.
pub fn word(text: &[u8], at: usize) -> Span
    requires { at ≤ length text.now }
    ensures { (result.from ≤ result.to) × (result.to ≤ length text.now) × (take (result.to - result.from) (drop result.from text.now) ≡ word_in (drop at text.now)) × (drop result.to text.now ≡ rest_of (drop at text.now)) }
{
    let from = word_start(text, at);
    let to = word_end(text, from);
    Span { from, to }
}

// The place behind the first words, so many; the end of the text, where there are fewer. Public for the crate bench.
pub fn behind(text: &[u8], count: usize) -> usize
    ensures { (result ≤ length text.now) × (drop result text.now ≡ behind_words count text.now) }
{
    let mut at = 0;
    for _ in 0..count {
        at = word(text, at).to;
    }
    at
}

// A call in a table of calls: its number, and where the kinds of its words stand there.
#[derive(Clone, Copy)]
pub struct Found {
    pub number: u32,
    pub from: usize,
    pub to: usize,
}

// The call of this name in a table of so many: a name and the kinds of its words, and so on.
pub fn look_up(name: &[u8], table: &[u8], count: u32) -> Option<Found>
    ensures none { IfNone result ((number_in count name.now table.now ≡ count) × (kinds_in count name.now table.now ≡ [])) }
    ensures some { IfSome result (λ f. (f.number < count) × (f.number ≡ number_in count name.now table.now) × (f.from ≤ f.to) × (f.to ≤ length table.now) × (take (f.to - f.from) (drop f.from table.now) ≡ kinds_in count name.now table.now)) }
{
    let mut at = 0;
    for number in 0..count {
        let a = word(table, at);
        let kinds = word(table, a.to);
        if name == &table[a.from..a.to] {
            return Some(Found {
                number,
                from: kinds.from,
                to: kinds.to,
            });
        }
        at = kinds.to;
    }
    None
}
