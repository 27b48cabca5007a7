// Lines: found in the blocks that are read, gathered, counted and answered.
ghost use Rattle.std.specs.Prelude.{◌≡◌, ◌≤◌};
ghost use Rattle.classbook.specs.Book.{empty_book};
ghost use Rattle.bench.specs.Lines.{gathered_line};

use crate::calls;
use classbook::Book;
use lesson_replies::say;
use printing::{Lines, Outputs};

// What goes on from line to line: the book; how many lines there were; the next one, and how many bytes of it are gathered, 8192 standing for any that are too many;
// and whether each line is written before its reply.
#[derive(Drop)]
pub struct Session {
    book: Book,
    number: u64,
    line: [u8; 8192],
    held: usize,
    echo: bool,

    ghost room: { held ≤ 8192 },
}

// The line's bytes, answered.
fn reply(out: &mut Lines<'_, impl Outputs>, line: &[u8], held: usize, number: u64, b: &mut Book)
    ensures { b.new ≡ gathered_line held line.now b.old }
{
    if held < line.len() {
        calls::answer(out, number, &line[..held], b);
    } else {
        say::no_call(out, number, b": longer than 8191 bytes\n");
    }
}

impl Session {
    // The book is empty, and nothing was read.
    pub fn start(echo: bool) -> Session
        ensures { result.book ≡ empty_book }
    {
        Session {
            book: classbook::empty_book(),
            number: 0,
            line: [0; 8192],
            held: 0,
            echo,
        }
    }

    // Puts bytes behind those of the line that are there, as far as there is room.
    fn gather(&mut self, bytes: &[u8])
        ensures { self.new.book ≡ self.old.book }
    {
        let n = bytes.len().min(8192 - self.held);
        self.line[self.held..self.held + n].copy_from_slice(&bytes[..n]);
        self.held += n;
    }

    // The line that is gathered is answered, and the next one begins. It is written before its reply, as far as it was gathered, if that is asked for.
    fn answer(&mut self, out: &mut Lines<'_, impl Outputs>)
        ensures { self.new.book ≡ gathered_line self.old.held self.old.line self.old.book }
    {
        self.number = self.number.wrapping_add(1);
        if self.echo {
            say::echoed(out, self.number, &self.line[..self.held]);
        }
        reply(out, &self.line, self.held, self.number, &mut self.book);
        self.held = 0;
    }

    // Answers every line that ends in these bytes and keeps what is left.
    pub fn block(&mut self, out: &mut Lines<'_, impl Outputs>, bytes: &[u8]) {
        for piece in bytes.split_inclusive(|&b| b == b'\n') {
            match piece.strip_suffix(b"\n") {
                None => self.gather(piece),
                Some(line) => {
                    self.gather(line);
                    self.answer(out);
                }
            }
        }
    }

    // The input is at its end, where a line may stand that has no LF.
    pub fn last(&mut self, out: &mut Lines<'_, impl Outputs>) {
        if self.held > 0 {
            self.answer(out);
        }
    }
}
