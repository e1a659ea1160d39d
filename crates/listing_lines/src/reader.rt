// Reading a list line by line. What is told of the lines is printed to `out`.
ghost use Rattle.std.specs.Prelude.{◌≤◌};

use listing::text::Outcome;
use std::io;

// Room for a line: two envelopes of 256 points and their answer take some 40,000 bytes.
const ROOM: usize = 131072;

// Where a line stands in the buffer.
#[derive(Clone, Copy)]
struct Place {
    start: usize,
    end: usize,
    ghost in_order: { start ≤ end },
    ghost in_buf: { end ≤ 131072 },
}

// What has come of a list so far: `number` is the last line's; `run` and `differ` count the lines of a part that were
// run, and those of them that aren't right.
#[derive(Clone, Copy, Default)]
pub struct Reader {
    pub ended: bool,
    pub number: u64,
    pub run: u64,
    pub differ: u64,
}

// A list that is being read. The buffer's first `full` bytes are the list's, and the next line begins
// at `at`: one array serves the whole list, so what it holds and how far that is read stand beside it.
// `cut` is set while the rest of a line goes by that is longer than the buffer.
#[derive(Drop)]
pub struct Lines<R, P> {
    pub reader: Reader,
    input: R,
    out: P,
    buf: [u8; ROOM],
    at: usize,
    full: usize,
    cut: bool,
    ghost in_order: { at ≤ full },
    ghost in_buf: { full ≤ 131072 },
}

// Empty lines and comments are not run.
fn is_run(line: &[u8]) -> bool {
    line.first().is_some_and(|b| *b != b'#')
}

impl<R: io::Read, P: Print> Lines<R, P> {
    // A list of which nothing is read yet.
    pub fn new(input: R, out: P) -> Self {
        Lines {
            reader: Reader::default(),
            input,
            out,
            buf: [0; ROOM],
            at: 0,
            full: 0,
            cut: false,
        }
    }

    // The line at these places has gone by; where it stands, if it is to be run.
    fn passed(&mut self, line: Place) -> Option<Place> {
        let bytes = &self.buf[line.start..line.end];
        let run = is_run(bytes);
        let ends_part = bytes.starts_with(b"##");
        self.reader.number = self.reader.number.wrapping_add(1);
        if ends_part {
            self.reader.end_part(&self.out);
        }
        run.then_some(line)
    }

    // A line that fills the buffer. A comment is passed over, any other is no line.
    fn long_line(&mut self) {
        self.at = 0;
        self.full = 0;
        if self.cut {
            return;
        }
        self.cut = true;
        let line = Place {
            start: 0,
            end: ROOM,
        };
        if self.passed(line).is_some() {
            self.counted(None);
        }
    }

    // One read, after what the buffer holds; whether it gave anything.
    fn read_more(&mut self) -> bool {
        match self.input.read(&mut self.buf[self.full..]) {
            Ok(n) => {
                self.full += n;
                n > 0
            }
            Err(_) => {
                self.reader.count_unread(&self.out);
                false
            }
        }
    }

    // A line, if one is in the buffer, else a read. After the last line, which may have no newline, the list has ended.
    fn step(&mut self) -> Option<Place> {
        let (at, full) = (self.at, self.full);
        if let Some(n) = self.buf[at..full].iter().position(|b| *b == b'\n') {
            self.at = at + n + 1;
            if self.cut {
                self.cut = false;
                return None;
            }
            return self.passed(Place {
                start: at,
                end: at + n,
            });
        }
        if full - at == ROOM {
            self.long_line();
            return None;
        }
        self.buf.copy_within(at..full, 0);
        self.at = 0;
        self.full = full - at;
        if self.read_more() {
            return None;
        }
        self.reader.ended = true;
        if self.full == 0 || self.cut {
            return None;
        }
        let line = Place {
            start: 0,
            end: self.full,
        };
        self.passed(line)
    }

    // Where the next line to be run stands. A proved loop has to end, and nothing says that a list does:
    // so the steps are counted, up to a number that no run uses up.
    fn next_place(&mut self) -> Option<Place> {
        for _ in 0..u64::MAX {
            if self.reader.ended {
                return None;
            }
            if let Some(line) = self.step() {
                return Some(line);
            }
        }
        None
    }

    // The next line to be run; none where the list has ended.
    pub fn next_line(&mut self) -> Option<&[u8]> {
        let line = self.next_place()?;
        // shared whole first: the check doesn't cover a shared part of an array behind a `&mut`
        let read = &*self;
        Some(&read.buf[line.start..line.end])
    }

    // The last line that was given was run, and came to this; none where it is no call that we have.
    pub fn counted(&mut self, outcome: Option<Outcome>) {
        self.reader.count(&self.out, outcome);
    }

    pub fn print_tally(&self) {
        let _ = println!(self.out; "{}", self.reader);
    }
}
