// The settings line.
ghost use Rattle.std.specs.Prelude.{◌≡◌};
ghost use Rattle.points.specs.Refusal.{said, gives};
ghost use Rattle.fields.specs.Form.{space, optional_form};
ghost use Rattle.fields.specs.Told.{told};
ghost use Rattle.lines.specs.Lines.{check, settings_form, limit_of, finite_bits, settings_meaning, settings_line};
ghost use Rattle.lines.specs.Told.{told_line};

use crate::field::{finitef, number, optional, target};
use points::refusal::Refusal;

// The line's numbers as they stand.
#[derive(Clone, Copy)]
pub struct RawSettings {
    pub target: u32,
    pub enabled: u32,
    pub min: Option<u32>,
    pub max: Option<u32>,
    pub step: Option<u32>,
    pub hard: u32,
}

#[derive(Clone, Copy)]
pub struct Settings {
    pub target: u32,
    pub enabled: bool,
    pub min: Option<f32>,
    pub max: Option<f32>,
    pub step: Option<f32>,
    pub hard: bool,
}

// A limit's bits, or '-' for none.
fn limit(s: &[u8]) -> Option<(Option<u32>, &[u8])>
    ensures { told result ≡ optional_form 8 space s.now }
{
    let (bits, s) = optional(s, 8, b' ')?;
    Some((bits.map(|b| b as u32), s))
}

#[tactic(auto, unfolding(crate::specs::Lines::settings_form))]
fn settings_form(s: &[u8]) -> Option<(RawSettings, &[u8])>
    ensures { told result ≡ settings_form s.now }
{
    let (target, s) = target(s)?;
    let (enabled, s) = number(s, 2, 1, b' ')?;
    let (min, s) = limit(s)?;
    let (max, s) = limit(s)?;
    let (step, s) = limit(s)?;
    let (hard, s) = number(s, 2, 1, b'\n')?;
    let raw = RawSettings {
        target,
        enabled: enabled as u32,
        min,
        max,
        step,
        hard: hard as u32,
    };
    Some((raw, s))
}

#[tactic(auto, unfolding(crate::specs::Lines::limit_of, crate::specs::Lines::finite_bits))]
fn limit_of(bits: Option<u32>) -> Result<Option<f32>, Refusal>
    ensures { said result ≡ check (finite_bits bits) 3 (gives (limit_of bits)) }
{
    bits.map(finitef).transpose()
}

// The settings that the numbers stand for. No From, since it can fail; a TryFrom would be an impl with an error type and a clause for one call, no plainer.
#[tactic(auto, unfolding(crate::specs::Lines::settings_meaning))]
fn settings_of(r: RawSettings) -> Result<Settings, Refusal>
    ensures { said result ≡ settings_meaning r }
{
    Ok(Settings {
        target: r.target,
        enabled: r.enabled == 1,
        min: limit_of(r.min)?,
        max: limit_of(r.max)?,
        step: limit_of(r.step)?,
        hard: r.hard == 1,
    })
}

// The line's form, then its meaning.
#[tactic(auto, unfolding(crate::specs::Lines::settings_line))]
pub fn settings_line(s: &[u8]) -> Result<(Settings, &[u8]), Refusal>
    ensures { told_line result ≡ settings_line s.now }
{
    let (raw, rest) = settings_form(s).ok_or(Refusal::SheetForm)?;
    Ok((settings_of(raw)?, rest))
}
