// A line that is being written. A byte past the end of its space is dropped, and its length does not grow past it.
ghost use Rattle.std.specs.Prelude.{[], ◌∷◌};
ghost use Rattle.report.specs.Decimals.{decimal, signed};
ghost use Rattle.report.specs.Lines.{counts, counted_line, refusal_line};
ghost use Rattle.report.specs.Writing.{Appends, PutsLine};

use crate::Line;
use crate::shown::{Signed, show};
use answer::Answer;
use definitions::numbers::{CONSTRUCTOR, NUMBER, is_refusal};

// The space, and how many bytes of it are written.
#[derive(Drop)]
pub(crate) struct LineWriter {
    pub space: Line,
    pub length: usize,
}

impl LineWriter {
    fn byte(&mut self, x: u8)
        ensures { Appends self.old (x ∷ []) self.new }
    {
        if self.length < self.space.len() {
            self.space[self.length] = x;
            self.length += 1;
        }
    }

    // Writes a word, which is any run of bytes.
    fn word(&mut self, word: &[u8])
        ensures { Appends self.old word.now self.new }
    {
        for &x in word {
            self.byte(x);
        }
    }

    // Writes a number: the digits of its tenth, then its last digit.
    fn decimal(&mut self, n: usize)
        ensures { Appends self.old (decimal n) self.new }
    {
        if 10 <= n {
            self.decimal(n / 10);
        }
        self.byte(b'0' + (n % 10) as u8);
    }

    // Writes a number that may be below zero.
    fn signed(&mut self, x: Signed)
        ensures { Appends self.old (signed x.negative x.size) self.new }
    {
        if x.negative {
            self.byte(b'-');
        }
        self.decimal(x.size);
    }

    // Writes the steps, the cells and the line end.
    fn counts(&mut self, a: Answer)
        ensures { Appends self.old (counts a.steps a.cells) self.new }
    {
        self.word(b" steps ");
        self.decimal(a.steps as usize);
        self.word(b" cells ");
        self.decimal(a.cells as usize);
        self.word(b"\n");
    }

    // Writes a line of a word, a number and the counts.
    fn counted(&mut self, word: &[u8], x: Signed, a: Answer)
        ensures { Appends self.old (counted_line word.now (signed x.negative x.size) a.steps a.cells) self.new }
    {
        self.word(word);
        self.signed(x);
        self.counts(a);
    }

    // Writes the line of a refusal.
    fn refusal(&mut self, number: u16, place: Signed)
        ensures { Appends self.old (refusal_line number (signed place.negative place.size)) self.new }
    {
        self.word(b"refused ");
        self.decimal(usize::from(number));
        self.word(b" place ");
        self.signed(place);
        self.word(b"\n");
    }

    // Writes the line of an answer, by its outcome's number.
    pub fn answer(&mut self, a: Answer)
        ensures { PutsLine a self.old self.new }
    {
        let s = show(a.outcome);
        if s.number == NUMBER {
            self.counted(b"number ", s.value, a);
        } else if s.number == CONSTRUCTOR {
            self.counted(b"constructor ", s.value, a);
        } else if is_refusal(s.number) {
            self.refusal(s.number, s.value);
        } else {
            self.counted(b"end ", Signed::from(usize::from(s.number)), a);
        }
    }
}
