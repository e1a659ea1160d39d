// Playing a sheet: the bytes that the program prints, block after block.
#![tactic(auto)]

ghost use Rattle.std.specs.Prelude.{◌≡◌, ◌-◌, min};
ghost use Rattle.points.specs.Refusal.{said};
ghost use Rattle.sheet.specs.Sheet.{play_input};
ghost use Rattle.play.specs.Play.{counted};
ghost use Rattle.play.specs.Blocks.{Leaves, Opens, next_block};

use envelope::AutomationEnvelope;
use fields::write::fit_text;
use points::refusal::Refusal;
use sheet::SheetRefusal;
use sheet::play::read_play;
use std::num::saturating_f64_to_u64;

mod text;

// What is left to play: the samples from `next` on, up to `count`.
#[derive(Clone, Copy)]
pub struct Play {
    pub envelope: AutomationEnvelope,
    pub rate: f64,
    pub count: u64,
    pub next: u64,
}

// How many bytes were written, and what is left to play, or the refusal that they tell.
#[derive(Clone, Copy)]
pub struct Opened {
    pub bytes: usize,
    pub play: Result<Play, SheetRefusal>,
}

// As many samples as a play may have.
const MOST_SAMPLES: u64 = 4294967295;

// What the input asks to be played.
fn play_of(s: &[u8]) -> Result<Play, SheetRefusal>
    ensures { Leaves (counted (play_input s.now)) result }
{
    let input = read_play(s)?;
    let count = saturating_f64_to_u64(input.duration * input.rate);
    if MOST_SAMPLES < count {
        let refusal = Refusal::TooManySamples;
        return Err(SheetRefusal { refusal, line: 0 });
    }
    Ok(Play {
        envelope: input.envelope,
        rate: input.rate,
        count,
        next: 0,
    })
}

// Reads the input, and writes the names above the samples or the refusal.
pub fn open(s: &[u8], out: &mut [u8; 20480]) -> Opened
    ensures { Opens (counted (play_input s.now)) out.old result out.new }
{
    match play_of(s) {
        Ok(play) => Opened {
            bytes: fit_text(out, 0, b"sample value\n"),
            play: Ok(play),
        },
        Err(why) => Opened {
            bytes: text::put_refusal(out, why),
            play: Err(why),
        },
    }
}

// How many samples the next block has.
fn block_count(count: u64, next: u64) -> u64
    ensures { result ≡ min 1024 (count - next) }
{
    count.saturating_sub(next).min(1024)
}

// Writes the lines of the next samples, 1024 at most: a line has 20 bytes at most. Says how many bytes they have; a refusal leaves the play as it was.
pub fn next_block(play: &mut Play, out: &mut [u8; 20480]) -> Result<usize, Refusal>
    ensures answer { said result ≡ (next_block play.old out.old).said }
    ensures left { play.new ≡ (next_block play.old out.old).play }
    ensures out_after { out.new ≡ (next_block play.old out.old).bytes }
{
    let n = block_count(play.count, play.next);
    let mut samples = [0.0; 1024];
    play.envelope
        .render(play.rate, play.next, n, &mut samples, 0)?;
    let bytes = text::put_lines(out, &samples[..n as usize], play.next);
    play.next += n;
    Ok(bytes)
}
