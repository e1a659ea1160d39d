// The Bench's edits, by 000's names: the envelope goes in and its changed successor comes back, or the refusal.
ghost use Rattle.std.specs.Prelude.{◌≡◌};
ghost use Rattle.envelope.specs.Edit.{told_edit, edit_of, join_of};
ghost use Rattle.envelope.specs.declared.edit.Edit.TheVariants.{OfPoints, Replace};
ghost use Rattle.envelope.specs.declared.edit.PointsEdit.TheVariants.{AddPoint, RemovePointAt, ShiftPoints, ScaleTime, Trim, Reverse, InvertValues, QuantizeTime, Simplify, Normalize, Scale, Offset, ClampValues, ApplyFadeIn, ApplyFadeOut, ApplyFades, ApplyGate, ApplyCompression};
ghost use Rattle.envelope.specs.declared.edit.Replacement.TheVariants.{FadeIn, FadeOut, Pulse, Ramp};
ghost use Rattle.envelope.specs.declared.edit.Join.TheVariants.{Merge, Combine};
ghost use Rattle.combine.specs.declared.Operation.TheVariants.{Blend, Add, Multiply, Min, Max, Subtract};

use crate::AutomationEnvelope;
use crate::edit::{Join, PointsEdit, Replacement};
use combine::Operation;
use curve::CurveType;
use points::AutomationPoint;
use points::refusal::Refusal;

impl AutomationEnvelope {
    pub fn add_point(mut self, point: AutomationPoint) -> Result<AutomationEnvelope, Refusal>
        ensures { told_edit self result ≡ edit_of (OfPoints (AddPoint point)) self }
    {
        self.edit_points(PointsEdit::AddPoint(point))
    }

    pub fn remove_point_at(mut self, time: f64) -> Result<AutomationEnvelope, Refusal>
        ensures { told_edit self result ≡ edit_of (OfPoints (RemovePointAt time)) self }
    {
        self.edit_points(PointsEdit::RemovePointAt(time))
    }

    pub fn shift_points(mut self, offset: f64) -> Result<AutomationEnvelope, Refusal>
        ensures { told_edit self result ≡ edit_of (OfPoints (ShiftPoints offset)) self }
    {
        self.edit_points(PointsEdit::ShiftPoints(offset))
    }

    pub fn scale_time(mut self, factor: f64) -> Result<AutomationEnvelope, Refusal>
        ensures { told_edit self result ≡ edit_of (OfPoints (ScaleTime factor)) self }
    {
        self.edit_points(PointsEdit::ScaleTime(factor))
    }

    pub fn trim(mut self, start_time: f64, end_time: f64) -> Result<AutomationEnvelope, Refusal>
        ensures { told_edit self result ≡ edit_of (OfPoints (Trim start_time end_time)) self }
    {
        self.edit_points(PointsEdit::Trim(start_time, end_time))
    }

    pub fn reverse(mut self) -> Result<AutomationEnvelope, Refusal>
        ensures { told_edit self result ≡ edit_of (OfPoints Reverse) self }
    {
        self.edit_points(PointsEdit::Reverse)
    }

    pub fn invert_values(mut self, min: f32, max: f32) -> Result<AutomationEnvelope, Refusal>
        ensures { told_edit self result ≡ edit_of (OfPoints (InvertValues min max)) self }
    {
        self.edit_points(PointsEdit::InvertValues(min, max))
    }

    pub fn quantize_time(mut self, grid: f64) -> Result<AutomationEnvelope, Refusal>
        ensures { told_edit self result ≡ edit_of (OfPoints (QuantizeTime grid)) self }
    {
        self.edit_points(PointsEdit::QuantizeTime(grid))
    }

    pub fn simplify(mut self, tolerance: f32) -> Result<AutomationEnvelope, Refusal>
        ensures { told_edit self result ≡ edit_of (OfPoints (Simplify tolerance)) self }
    {
        self.edit_points(PointsEdit::Simplify(tolerance))
    }

    pub fn normalize(mut self, new_min: f32, new_max: f32) -> Result<AutomationEnvelope, Refusal>
        ensures { told_edit self result ≡ edit_of (OfPoints (Normalize new_min new_max)) self }
    {
        self.edit_points(PointsEdit::Normalize(new_min, new_max))
    }

    pub fn scale(mut self, factor: f32) -> Result<AutomationEnvelope, Refusal>
        ensures { told_edit self result ≡ edit_of (OfPoints (Scale factor)) self }
    {
        self.edit_points(PointsEdit::Scale(factor))
    }

    pub fn offset(mut self, amount: f32) -> Result<AutomationEnvelope, Refusal>
        ensures { told_edit self result ≡ edit_of (OfPoints (Offset amount)) self }
    {
        self.edit_points(PointsEdit::Offset(amount))
    }

    pub fn clamp_values(mut self, min: f32, max: f32) -> Result<AutomationEnvelope, Refusal>
        ensures { told_edit self result ≡ edit_of (OfPoints (ClampValues min max)) self }
    {
        self.edit_points(PointsEdit::ClampValues(min, max))
    }

    pub fn apply_fade_in(
        mut self,
        duration: f64,
        curve: CurveType,
    ) -> Result<AutomationEnvelope, Refusal>
        ensures { told_edit self result ≡ edit_of (OfPoints (ApplyFadeIn duration curve)) self }
    {
        self.edit_points(PointsEdit::ApplyFadeIn(duration, curve))
    }

    pub fn apply_fade_out(
        mut self,
        duration: f64,
        curve: CurveType,
    ) -> Result<AutomationEnvelope, Refusal>
        ensures { told_edit self result ≡ edit_of (OfPoints (ApplyFadeOut duration curve)) self }
    {
        self.edit_points(PointsEdit::ApplyFadeOut(duration, curve))
    }

    pub fn apply_fades(
        mut self,
        fade_in_duration: f64,
        fade_out_duration: f64,
        curve: CurveType,
    ) -> Result<AutomationEnvelope, Refusal>
        ensures { told_edit self result ≡ edit_of (OfPoints (ApplyFades fade_in_duration fade_out_duration curve)) self }
    {
        self.edit_points(PointsEdit::ApplyFades(fade_in_duration, fade_out_duration, curve))
    }

    pub fn apply_gate(mut self, threshold: f32) -> Result<AutomationEnvelope, Refusal>
        ensures { told_edit self result ≡ edit_of (OfPoints (ApplyGate threshold)) self }
    {
        self.edit_points(PointsEdit::ApplyGate(threshold))
    }

    pub fn apply_compression(
        mut self,
        threshold: f32,
        ratio: f32,
    ) -> Result<AutomationEnvelope, Refusal>
        ensures { told_edit self result ≡ edit_of (OfPoints (ApplyCompression threshold ratio)) self }
    {
        self.edit_points(PointsEdit::ApplyCompression(threshold, ratio))
    }

    pub fn fade_in(mut self, duration: f64, curve: CurveType) -> Result<AutomationEnvelope, Refusal>
        ensures { told_edit self result ≡ edit_of (Replace (FadeIn duration curve)) self }
    {
        self.replace_points(Replacement::FadeIn(duration, curve))
    }

    pub fn fade_out(
        mut self,
        duration: f64,
        curve: CurveType,
    ) -> Result<AutomationEnvelope, Refusal>
        ensures { told_edit self result ≡ edit_of (Replace (FadeOut duration curve)) self }
    {
        self.replace_points(Replacement::FadeOut(duration, curve))
    }

    pub fn pulse(
        mut self,
        fade_in: f64,
        sustain: f64,
        fade_out: f64,
        curve: CurveType,
    ) -> Result<AutomationEnvelope, Refusal>
        ensures { told_edit self result ≡ edit_of (Replace (Pulse fade_in sustain fade_out curve)) self }
    {
        self.replace_points(Replacement::Pulse(fade_in, sustain, fade_out, curve))
    }

    pub fn ramp(
        mut self,
        duration: f64,
        start: f32,
        end_value: f32,
        curve: CurveType,
    ) -> Result<AutomationEnvelope, Refusal>
        ensures { told_edit self result ≡ edit_of (Replace (Ramp duration start end_value curve)) self }
    {
        self.replace_points(Replacement::Ramp(duration, start, end_value, curve))
    }

    // Blends this envelope with another: 0.0 is this one, 1.0 the other.
    pub fn blend(
        mut self,
        other: &AutomationEnvelope,
        factor: f32,
    ) -> Result<AutomationEnvelope, Refusal>
        ensures { told_edit self result ≡ join_of (Combine (Blend factor)) self other.now }
    {
        self.join(Join::Combine(Operation::Blend(factor)), other)
    }

    // The other's points, each at its time plus the offset.
    pub fn merge(
        mut self,
        other: &AutomationEnvelope,
        offset: f64,
    ) -> Result<AutomationEnvelope, Refusal>
        ensures { told_edit self result ≡ join_of (Merge offset) self other.now }
    {
        self.join(Join::Merge(offset), other)
    }

    pub fn add(mut self, other: &AutomationEnvelope) -> Result<AutomationEnvelope, Refusal>
        ensures { told_edit self result ≡ join_of (Combine Add) self other.now }
    {
        self.join(Join::Combine(Operation::Add), other)
    }

    pub fn multiply(mut self, other: &AutomationEnvelope) -> Result<AutomationEnvelope, Refusal>
        ensures { told_edit self result ≡ join_of (Combine Multiply) self other.now }
    {
        self.join(Join::Combine(Operation::Multiply), other)
    }

    pub fn min(mut self, other: &AutomationEnvelope) -> Result<AutomationEnvelope, Refusal>
        ensures { told_edit self result ≡ join_of (Combine Min) self other.now }
    {
        self.join(Join::Combine(Operation::Min), other)
    }

    pub fn max(mut self, other: &AutomationEnvelope) -> Result<AutomationEnvelope, Refusal>
        ensures { told_edit self result ≡ join_of (Combine Max) self other.now }
    {
        self.join(Join::Combine(Operation::Max), other)
    }

    pub fn subtract(mut self, other: &AutomationEnvelope) -> Result<AutomationEnvelope, Refusal>
        ensures { told_edit self result ≡ join_of (Combine Subtract) self other.now }
    {
        self.join(Join::Combine(Operation::Subtract), other)
    }
}
