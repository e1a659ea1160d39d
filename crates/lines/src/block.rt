// The line of rate and duration.
ghost use Rattle.std.specs.Prelude.{◌≡◌};
ghost use Rattle.points.specs.Refusal.{said};
ghost use Rattle.fields.specs.Told.{told};
ghost use Rattle.lines.specs.Lines.{block_form, block_meaning, block_line};
ghost use Rattle.lines.specs.Told.{told_line};

use crate::field::{finite, number};
use points::refusal::Refusal;

// The block's numbers as they stand.
#[derive(Clone, Copy)]
pub struct RawBlock {
    pub rate: u64,
    pub duration: u64,
}

#[derive(Clone, Copy)]
pub struct Block {
    pub rate: f64,
    pub duration: f64,
}

#[tactic(auto, unfolding(crate::specs::Lines::block_form))]
fn block_form(s: &[u8]) -> Option<(RawBlock, &[u8])>
    ensures { told result ≡ block_form s.now }
{
    let (rate, s) = number(s, 16, 16, b' ')?;
    let (duration, s) = number(s, 16, 16, b'\n')?;
    Some((RawBlock { rate, duration }, s))
}

#[tactic(auto, unfolding(crate::specs::Lines::block_meaning))]
fn block_of(r: RawBlock) -> Result<Block, Refusal>
    ensures { said result ≡ block_meaning r }
{
    let rate = finite(r.rate)?;
    let duration = finite(r.duration)?;
    Ok(Block { rate, duration })
}

// The line's form, then its meaning.
#[tactic(auto, unfolding(crate::specs::Lines::block_line))]
pub fn block_line(s: &[u8]) -> Result<(Block, &[u8]), Refusal>
    ensures { told_line result ≡ block_line s.now }
{
    let (raw, rest) = block_form(s).ok_or(Refusal::SheetForm)?;
    Ok((block_of(raw)?, rest))
}
