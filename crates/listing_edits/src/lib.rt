// The edits in a line: a name, and its arguments. A library of the tool `vectors`: its functions are
// proved safe and ending, and state no result.
#![tactic(auto)]

use combine::Operation;
use curve::CurveType;
use envelope::edit::{Edit, Join, PointsEdit, Replacement};
use listing::text::Line;
use listing_numbers::curves::Curve;
use listing_points::records::Point;

// The edit of a name; none where the line has other arguments.
pub fn edit(name: &[u8], line: &mut Line<'_>) -> Option<Edit> {
    Some(match name {
        b"set_enabled" => Edit::SetEnabled(line.field()?),
        b"set_hard" => Edit::SetHard(line.field()?),
        b"set_min" => Edit::SetMin(line.field()?),
        b"set_max" => Edit::SetMax(line.field()?),
        b"set_step" => Edit::SetStep(line.field()?),
        _ => match replacement(name, line) {
            Some(replacement) => Edit::Replace(replacement),
            None => Edit::OfPoints(points_edit(name, line)?),
        },
    })
}

fn curve(line: &mut Line<'_>) -> Option<CurveType> {
    let Curve(curve) = line.field()?;
    Some(curve)
}

fn replacement(name: &[u8], line: &mut Line<'_>) -> Option<Replacement> {
    Some(match name {
        b"fade_in" => Replacement::FadeIn(line.field()?, curve(line)?),
        b"fade_out" => Replacement::FadeOut(line.field()?, curve(line)?),
        b"pulse" => {
            Replacement::Pulse(line.field()?, line.field()?, line.field()?, curve(line)?)
        }
        b"ramp" => Replacement::Ramp(line.field()?, line.field()?, line.field()?, curve(line)?),
        _ => return None,
    })
}

fn points_edit(name: &[u8], line: &mut Line<'_>) -> Option<PointsEdit> {
    Some(match name {
        b"reverse" => PointsEdit::Reverse,
        b"add_point" => {
            let Point(point) = line.field()?;
            PointsEdit::AddPoint(point)
        }
        b"remove_point_at" => PointsEdit::RemovePointAt(line.field()?),
        b"shift" => PointsEdit::ShiftPoints(line.field()?),
        b"scale_time" => PointsEdit::ScaleTime(line.field()?),
        b"quantize_time" => PointsEdit::QuantizeTime(line.field()?),
        b"simplify" => PointsEdit::Simplify(line.field()?),
        b"scale" => PointsEdit::Scale(line.field()?),
        b"offset" => PointsEdit::Offset(line.field()?),
        b"apply_gate" => PointsEdit::ApplyGate(line.field()?),
        b"trim" => PointsEdit::Trim(line.field()?, line.field()?),
        b"invert_values" => PointsEdit::InvertValues(line.field()?, line.field()?),
        b"normalize" => PointsEdit::Normalize(line.field()?, line.field()?),
        b"clamp_values" => PointsEdit::ClampValues(line.field()?, line.field()?),
        b"apply_compression" => PointsEdit::ApplyCompression(line.field()?, line.field()?),
        b"apply_fade_in" => PointsEdit::ApplyFadeIn(line.field()?, curve(line)?),
        b"apply_fade_out" => PointsEdit::ApplyFadeOut(line.field()?, curve(line)?),
        b"apply_fades" => PointsEdit::ApplyFades(line.field()?, line.field()?, curve(line)?),
        _ => return None,
    })
}

// The edit of a name that takes a second envelope, with the arguments after that.
pub fn join(name: &[u8], line: &mut Line<'_>) -> Option<Join> {
    Some(match name {
        b"merge" => Join::Merge(line.field()?),
        b"blend" => Join::Combine(Operation::Blend(line.field()?)),
        b"add" => Join::Combine(Operation::Add),
        b"multiply" => Join::Combine(Operation::Multiply),
        b"min" => Join::Combine(Operation::Min),
        b"max" => Join::Combine(Operation::Max),
        b"subtract" => Join::Combine(Operation::Subtract),
        _ => return None,
    })
}
