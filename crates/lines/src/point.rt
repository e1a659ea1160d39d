// A point's line.
ghost use Rattle.std.specs.Prelude.{◌≡◌};
ghost use Rattle.points.specs.Refusal.{said};
ghost use Rattle.fields.specs.Told.{told};
ghost use Rattle.lines.specs.Lines.{controls_form, point_form, point_meaning, point_line};
ghost use Rattle.lines.specs.Told.{told_line};

use crate::field::{finite, finitef, number, optional};
use curve::CurveType;
use points::AutomationPoint;
use points::refusal::Refusal;

// The line's numbers as they stand; a plain curve's controls are 0.
#[derive(Clone, Copy)]
pub struct RawPoint {
    pub time: u64,
    pub position: Option<u64>,
    pub value: u32,
    pub curve: u32,
    pub cp1: u32,
    pub cp2: u32,
}

// Codes of curves: the one with controls, the one below the last that is no curve's, and the first past the last. They are numbers here and no CurveType:
// a line's numbers come before it is known whether they mean a curve.
pub const BEZIER: u32 = 5;

const NO_CURVE: u32 = 6;

const CURVES_END: u32 = 22;

// The controls that a curve's number asks for.
#[tactic(auto, using(fields::proofs::Starts::starts_front), unfolding(crate::specs::Lines::controls_form))]
fn controls(s: &[u8], code: u32) -> Option<((u32, u32), &[u8])>
    ensures { told result ≡ controls_form code s.now }
{
    if code == BEZIER {
        let (cp1, s) = number(s, 16, 8, b' ')?;
        let (cp2, s) = number(s, 16, 8, b'\n')?;
        return Some(((cp1 as u32, cp2 as u32), s));
    }
    let rest = s.strip_prefix(b"- -\n")?;
    Some(((0, 0), rest))
}

#[tactic(auto, unfolding(crate::specs::Lines::point_form))]
fn point_form(s: &[u8]) -> Option<(RawPoint, &[u8])>
    ensures { told result ≡ point_form s.now }
{
    let (time, s) = number(s, 16, 16, b' ')?;
    let (position, s) = optional(s, 16, b' ')?;
    let (value, s) = number(s, 16, 8, b' ')?;
    let (curve, s) = number(s, 10, 2, b' ')?;
    let curve = curve as u32;
    let ((cp1, cp2), s) = controls(s, curve)?;
    let raw = RawPoint {
        time,
        position,
        value: value as u32,
        curve,
        cp1,
        cp2,
    };
    Some((raw, s))
}

// The point that the numbers stand for. No From, since it can fail; a TryFrom would be an impl with an error type and a clause for one call, no plainer.
#[tactic(auto, unfolding(crate::specs::Lines::point_meaning))]
fn point_of(r: RawPoint) -> Result<AutomationPoint, Refusal>
    ensures { said result ≡ point_meaning r }
{
    let time = finite(r.time)?;
    let value = finitef(r.value)?;
    if (r.curve == NO_CURVE) | (CURVES_END <= r.curve) {
        return Err(Refusal::SheetCurve);
    }
    let cp1 = finitef(r.cp1)?;
    let cp2 = finitef(r.cp2)?;
    Ok(AutomationPoint {
        time,
        sample_position: r.position,
        value,
        curve: CurveType::from_code(r.curve, cp1, cp2),
    })
}

// The line's form, then its meaning.
#[tactic(auto, unfolding(crate::specs::Lines::point_line))]
pub(crate) fn point_line(s: &[u8]) -> Result<(AutomationPoint, &[u8]), Refusal>
    ensures { told_line result ≡ point_line s.now }
{
    let (raw, rest) = point_form(s).ok_or(Refusal::SheetForm)?;
    Ok((point_of(raw)?, rest))
}
