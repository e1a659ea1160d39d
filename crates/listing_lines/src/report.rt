// What is printed of the lines that were run, and their count. What the output doesn't take is let go.
use crate::reader::Reader;
use listing::text::Outcome;
use std::fmt;

// The tally of the part.
impl fmt::Display for Reader {
    fn fmt<W: fmt::Write>(&self, f: &mut fmt::Formatter<W>) -> fmt::Result {
        let Reader { run, differ, .. } = *self;
        write!(f, "{run} run, {differ} differ")
    }
}

impl Reader {
    fn right(&mut self) {
        self.run = self.run.wrapping_add(1);
    }

    fn wrong(&mut self) {
        self.run = self.run.wrapping_add(1);
        self.differ = self.differ.wrapping_add(1);
    }

    // The last line was run, and came to this.
    pub(crate) fn count(&mut self, out: &impl Print, outcome: Option<Outcome>) {
        let number = self.number;
        match outcome {
            Some(Outcome::Same) => self.right(),
            Some(Outcome::Differs) => {
                let _ = println!(out; "line {number} differs");
                self.wrong();
            }
            None => {
                let _ = println!(out; "line {number} is no line");
                self.wrong();
            }
        }
    }

    // A read that failed counts as a line that differs.
    pub(crate) fn count_unread(&mut self, out: &impl Print) {
        let _ = println!(out; "the input cannot be read");
        self.wrong();
    }

    // The end of a part of the list.
    pub(crate) fn end_part(&mut self, out: &impl Print) {
        let _ = println!(out; "{self}");
        self.run = 0;
        self.differ = 0;
    }
}
