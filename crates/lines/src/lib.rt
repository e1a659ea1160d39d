// The lines of a sheet and of the program's input, read. Each function reads the front of the bytes, and gives the bytes after it.
#![tactic(auto)]

ghost use Rattle.std.specs.Prelude.{◌≡◌};
ghost use Rattle.lines.specs.PointLines.{lines, onward};
ghost use Rattle.lines.specs.Told.{told_line, told_lines};

pub mod block;
mod field;
pub mod point;
pub mod point_lines;
pub mod settings;

use points::refusal::Refusal;

// A refusal, and its line, counted from 1. Nothing is given beside it.
#[derive(Clone, Copy, Debug, PartialEq, Eq)]
pub struct SheetRefusal {
    pub refusal: Refusal,
    pub line: u32,
}

// What a line says, or its refusal with its number.
pub fn on_line<T>(said: Result<(T, &[u8]), Refusal>, line: u32) -> Result<(T, &[u8]), SheetRefusal>
    ensures { told_lines result ≡ onward line (told_line said.entry) lines }
{
    said.map_err(|refusal| SheetRefusal { refusal, line })
}
