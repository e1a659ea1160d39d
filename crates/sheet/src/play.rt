// The program's input: a sheet and one more block.
ghost use Rattle.std.specs.Prelude.{◌≡◌};
ghost use Rattle.sheet.specs.Sheet.{play_input};
ghost use Rattle.sheet.specs.Told.{told_input};

use crate::read::{named, sheet_lines};
use envelope::AutomationEnvelope;
use lines::block::block_line;
use lines::{SheetRefusal, on_line};
use points::refusal::Refusal;

// What the program is to play.
#[derive(Clone, Copy)]
pub struct PlayInput {
    pub envelope: AutomationEnvelope,
    pub rate: f64,
    pub duration: f64,
}

// What the program is to play, or the first refusal with its line. Nothing is given beside a refusal.
#[tactic(auto, using(crate::proofs::Sheets::program_read), unfolding(crate::specs::Sheet::play_input, lines::specs::PointLines::is_empty))]
pub fn read_play(s: &[u8]) -> Result<PlayInput, SheetRefusal>
    ensures { told_input result ≡ play_input s.now }
{
    let (envelope, s) = sheet_lines(s, true)?;
    // the names are on line 4 after no points, and the numbers a line later
    let line = (envelope.points.count + 5) as u32;
    // the points ended where these names were seen, so this refusal never comes
    let s = named(s, b"rate duration\n", line - 1)?;
    let (block, s) = on_line(block_line(s), line)?;
    if !s.is_empty() {
        let refusal = Refusal::SheetForm;
        let line = line + 1;
        return Err(SheetRefusal { refusal, line });
    }
    Ok(PlayInput {
        envelope,
        rate: block.rate,
        duration: block.duration,
    })
}
