// The words of each refusal, for a caller over C to show and for the program `bench`: document 01's, but for 3, 4, 16 and 22 to 24, whose words docs/LESSONS.md has.
#![tactic(auto)]

ghost use Rattle.std.specs.Prelude.{◌≡◌, ◌++◌, ◌≤◌, length, drop};
ghost use Rattle.refusals.specs.Refusals.{said, ◌leaving◌};
ghost use Rattle.refusal_words.specs.Words.{words_of, words_outcome};

use refusals::Refusal;

// In the order of the numbers; 0 is no refusal's.
const WORDS: [&[u8]; 25] = [
    b"",
    b"cell parameter above 127",
    b"burst type not 1, 2 or 3",
    b"midamble count not 4, 8 or 16 (types 1, 3), not 3 or 6 (type 2); in opening a seat 0 is allowed too",
    b"user not permitted under the count (in a booking: outside 1..16 for types 1, 3; 1..6 for type 2)",
    b"timeslot above 14",
    b"spreading factor not 1, 2, 4, 8, 16; code index outside 1..factor; where a direction is given, downlink with a factor other than 1 or 16",
    b"type 3 in downlink",
    b"TFCI bits not 0, 4, 8, 16, 32; TPC bits not 0 or 2; TPC 2 in downlink",
    b"synchronisation case not 1 or 2; k above 14 (case 1) or above 6 (case 2)",
    b"PICH with type 3; indicator length not 2, 4, 8; frames per block outside 1..4; indicator number too large; paging bit outside the 244 or 276; timeslot chip above 2559; midamble chip outside 1 to its length",
    b"lent memory, read or written, shorter than the call needs (a list: fewer than 40 records, however few it writes)",
    b"the book breaks its conditions",
    b"seat above 15",
    b"seat not open",
    b"seat open already",
    b"user not permitted under this seat's count",
    b"clash inside this seat's own cell",
    b"beacon rule",
    b"seat holds 40",
    b"common room used up",
    b"no such booking",
    b"level not 1 to 2047",
    b"place above the midamble length",
    b"sample not a whole number from -2047 to 2047",
];

// None for a number that is no refusal's.
fn words_of(number: u32) -> &'static [u8]
    ensures words { result.now ≡ words_of number }
    ensures short { length result.now ≤ 255 }
{
    let i = number as usize;
    if i < WORDS.len() { WORDS[i] } else { b"" }
}

// A text into the first places of `out`, byte by byte: `copy_from_slice` would have the archive for C ask for `memmove`.
fn put(text: &[u8], out: &mut [u8])
    requires { length text.now ≤ length out.old }
    ensures { out.new ≡ text.now ++ drop (length text.now) out.old }
{
    for (i, &byte) in text.iter().enumerate() {
        out[i] = byte;
    }
}

// The words of a refusal number; none for a number that is no refusal's. Refusal: 11.
#[tactic(auto, using(refusals::proofs::Numbers::number_not_0), unfolding(crate::specs::Words::words_outcome, crate::specs::Words::putting, refusals::specs::Refusals::first_of, refusals::specs::Refusals::answer, refusals::specs::Refusals::after, refusals::specs::Refusals::number_of))]
pub fn words(number: u32, out: &mut [u8]) -> Result<u32, Refusal>
    ensures { said result leaving out.new ≡ words_outcome number out.old }
{
    let text = words_of(number);
    Refusal::ShortMemory.when(out.len() < text.len())?;
    put(text, out);
    Ok(text.len() as u32)
}
