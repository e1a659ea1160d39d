// 01's edits as data, and what each makes of an envelope.
ghost use Rattle.std.specs.Prelude.{◌≡◌};
ghost use Rattle.envelope.specs.Envelope.{new};
ghost use Rattle.envelope.specs.declared.edit.Edit.TheVariants.{OfPoints, Replace, SetEnabled, SetMin, SetMax, SetStep, SetHard};
ghost use Rattle.envelope.specs.Edit.{told_edit, points_edited, replaced_points, limit_checked, edit_of, join_of, with_points};
ghost use Rattle.envelope.specs.declared.edit.Join.TheVariants.{Merge, Combine};

use crate::AutomationEnvelope;
use combine::Operation;
use curve::CurveType;
use points::refusal::Refusal;
use points::{AutomationPoint, Points};

// The edits of the points.
#[derive(Clone, Copy)]
pub enum PointsEdit {
    AddPoint(AutomationPoint),
    RemovePointAt(f64),
    ShiftPoints(f64),
    ScaleTime(f64),
    Trim(f64, f64),
    Reverse,
    InvertValues(f32, f32),
    QuantizeTime(f64),
    Simplify(f32),
    Normalize(f32, f32),
    Scale(f32),
    Offset(f32),
    ClampValues(f32, f32),
    ApplyFadeIn(f64, CurveType),
    ApplyFadeOut(f64, CurveType),
    ApplyFades(f64, f64, CurveType),
    ApplyGate(f32),
    ApplyCompression(f32, f32),
}

// 000's constructors, given the target the envelope has.
#[derive(Clone, Copy)]
pub enum Replacement {
    FadeIn(f64, CurveType),
    FadeOut(f64, CurveType),
    Pulse(f64, f64, f64, CurveType),
    Ramp(f64, f32, f32, CurveType),
}

#[derive(Clone, Copy)]
pub enum Edit {
    OfPoints(PointsEdit),
    Replace(Replacement),
    SetEnabled(bool),
    SetMin(Option<f32>),
    SetMax(Option<f32>),
    SetStep(Option<f32>),
    SetHard(bool),
}

// The edits that take a second envelope.
#[derive(Clone, Copy)]
pub enum Join {
    Merge(f64),
    Combine(Operation),
}

impl PointsEdit {
    #[tactic(auto, unfolding(crate::specs::Edit::points_edited, crate::specs::Edit::proposed, settle::specs::Settle::edit_points, settle::specs::Settle::judged, pointwise::specs::Each::clamped_edit))]
    fn apply(self, points: &Points) -> Result<Points, Refusal>
        ensures { result ≡ points_edited self points.now }
    {
        match self {
            PointsEdit::AddPoint(p) => insert::add_point(points, p),
            PointsEdit::RemovePointAt(time) => shape::remove_point_at(points, time),
            PointsEdit::ShiftPoints(offset) => pointwise::shift_points(points, offset),
            PointsEdit::ScaleTime(factor) => pointwise::scale_time(points, factor),
            PointsEdit::Trim(start, end) => shape::trim(points, start, end),
            PointsEdit::Reverse => shape::reverse(points),
            PointsEdit::InvertValues(min, max) => pointwise::invert_values(points, min, max),
            PointsEdit::QuantizeTime(grid) => shape::quantize_time(points, grid),
            PointsEdit::Simplify(tolerance) => shape::simplify(points, tolerance),
            PointsEdit::Normalize(min, max) => pointwise::normalize(points, min, max),
            PointsEdit::Scale(factor) => pointwise::scale(points, factor),
            PointsEdit::Offset(amount) => pointwise::offset(points, amount),
            PointsEdit::ClampValues(min, max) => pointwise::clamp_values(points, min, max),
            PointsEdit::ApplyFadeIn(duration, c) => pointwise::apply_fade_in(points, duration, c),
            PointsEdit::ApplyFadeOut(duration, c) => pointwise::apply_fade_out(points, duration, c),
            PointsEdit::ApplyFades(fade_in, fade_out, c) => pointwise::apply_fades(
                points, fade_in, fade_out, c,
            ),
            PointsEdit::ApplyGate(threshold) => pointwise::apply_gate(points, threshold),
            PointsEdit::ApplyCompression(threshold, ratio) => pointwise::apply_compression(
                points, threshold, ratio,
            ),
        }
    }
}

impl Replacement {
    #[tactic(auto, unfolding(crate::specs::Edit::replaced_points, crate::specs::Edit::constructed, settle::specs::Settle::edit_points, settle::specs::Settle::judged))]
    fn apply(self, points: &Points) -> Result<Points, Refusal>
        ensures { result ≡ replaced_points self points.now }
    {
        match self {
            Replacement::FadeIn(duration, c) => insert::fade_in(points, duration, c),
            Replacement::FadeOut(duration, c) => insert::fade_out(points, duration, c),
            Replacement::Pulse(fade_in, sustain, fade_out, c) => insert::pulse(
                points, fade_in, sustain, fade_out, c,
            ),
            Replacement::Ramp(duration, start, end, c) => insert::ramp(
                points, duration, start, end, c,
            ),
        }
    }
}

impl AutomationEnvelope {
    // A new envelope's settings, with the target and these points.
    fn anew(&self, points: Points) -> AutomationEnvelope
        ensures { result ≡ with_points (new self.now.target) points }
    {
        AutomationEnvelope {
            points,
            ..AutomationEnvelope::new(self.target)
        }
    }

    // The refusals of a limit that is set.
    fn check_limit(&self, limit: Option<f32>) -> Result<(), Refusal>
        ensures { result ≡ limit_checked self.now limit }
    {
        self.check()?;
        if !limits::finite_limit(limit) {
            return Err(Refusal::NotFinite);
        }
        Ok(())
    }

    // Any edit of the points. The limits' 1 is an `if` here and in the two below: as a `check_limits()?` before the rest the goals did not close.
    #[tactic(auto, using(crate::proofs::Outcomes::refused_is), unfolding(crate::specs::Edit::edit_of, crate::specs::Edit::points_edited))]
    pub fn edit_points(mut self, edit: PointsEdit) -> Result<AutomationEnvelope, Refusal>
        ensures { told_edit self result ≡ edit_of (OfPoints edit) self }
    {
        if !self.limits().is_finite() {
            return Err(Refusal::NotValid);
        }
        self.points = edit.apply(&self.points)?;
        Ok(self)
    }

    // Any of 000's constructors.
    #[tactic(auto, using(crate::proofs::Outcomes::refused_is), unfolding(crate::specs::Edit::edit_of, crate::specs::Edit::replaced_points))]
    pub fn replace_points(mut self, replacement: Replacement) -> Result<AutomationEnvelope, Refusal>
        ensures { told_edit self result ≡ edit_of (Replace replacement) self }
    {
        if !self.limits().is_finite() {
            return Err(Refusal::NotValid);
        }
        Ok(self.anew(replacement.apply(&self.points)?))
    }

    #[tactic(auto, using(crate::proofs::Outcomes::switch_is), unfolding(crate::specs::Edit::edit_of))]
    pub fn set_enabled(mut self, enabled: bool) -> Result<AutomationEnvelope, Refusal>
        ensures { told_edit self result ≡ edit_of (SetEnabled enabled) self }
    {
        self.check()?;
        self.enabled = enabled;
        Ok(self)
    }

    #[tactic(auto, using(crate::proofs::Outcomes::setting_is), unfolding(crate::specs::Edit::edit_of))]
    pub fn set_min(mut self, min: Option<f32>) -> Result<AutomationEnvelope, Refusal>
        ensures { told_edit self result ≡ edit_of (SetMin min) self }
    {
        self.check_limit(min)?;
        self.min_value = min;
        Ok(self)
    }

    #[tactic(auto, using(crate::proofs::Outcomes::setting_is), unfolding(crate::specs::Edit::edit_of))]
    pub fn set_max(mut self, max: Option<f32>) -> Result<AutomationEnvelope, Refusal>
        ensures { told_edit self result ≡ edit_of (SetMax max) self }
    {
        self.check_limit(max)?;
        self.max_value = max;
        Ok(self)
    }

    #[tactic(auto, using(crate::proofs::Outcomes::setting_is), unfolding(crate::specs::Edit::edit_of))]
    pub fn set_step(mut self, step: Option<f32>) -> Result<AutomationEnvelope, Refusal>
        ensures { told_edit self result ≡ edit_of (SetStep step) self }
    {
        self.check_limit(step)?;
        self.step_size = step;
        Ok(self)
    }

    // 02's F-1.
    #[tactic(auto, using(crate::proofs::Outcomes::switch_is), unfolding(crate::specs::Edit::edit_of))]
    pub fn set_hard(mut self, on: bool) -> Result<AutomationEnvelope, Refusal>
        ensures { told_edit self result ≡ edit_of (SetHard on) self }
    {
        self.check()?;
        self.hard = on;
        Ok(self)
    }

    // Any of 01's edits.
    pub fn edit(mut self, e: Edit) -> Result<AutomationEnvelope, Refusal>
        ensures { told_edit self result ≡ edit_of e self }
    {
        match e {
            Edit::OfPoints(edit) => self.edit_points(edit),
            Edit::Replace(replacement) => self.replace_points(replacement),
            Edit::SetEnabled(on) => self.set_enabled(on),
            Edit::SetMin(l) => self.set_min(l),
            Edit::SetMax(l) => self.set_max(l),
            Edit::SetStep(l) => self.set_step(l),
            Edit::SetHard(on) => self.set_hard(on),
        }
    }

    // The other's points, each at its time plus the offset.
    #[tactic(auto, using(crate::proofs::Outcomes::refused_is), unfolding(crate::specs::Edit::join_of, insert::specs::Insert::merged_points))]
    fn merge_with(
        mut self,
        other: &AutomationEnvelope,
        offset: f64,
    ) -> Result<AutomationEnvelope, Refusal>
        ensures { told_edit self result ≡ join_of (Merge offset) self other.now }
    {
        if !self.limits().is_finite() | !other.limits().is_finite() {
            return Err(Refusal::NotValid);
        }
        self.points = insert::merge(&self.points, &other.points, offset)?;
        Ok(self)
    }

    // The operation on both values, at every time of either.
    #[tactic(auto, using(crate::proofs::Outcomes::combination_refused), unfolding(crate::specs::Edit::join_of, combine::specs::Combine::combined_points))]
    fn combine_with(
        &self,
        other: &AutomationEnvelope,
        operation: Operation,
    ) -> Result<AutomationEnvelope, Refusal>
        ensures { told_edit self.now result ≡ join_of (Combine operation) self.now other.now }
    {
        Ok(self.anew(combine::combine(operation, &self.heard(), &other.heard())?))
    }

    // Any of 01's edits that take a second envelope.
    pub fn join(
        mut self,
        join: Join,
        other: &AutomationEnvelope,
    ) -> Result<AutomationEnvelope, Refusal>
        ensures { told_edit self result ≡ join_of join self other.now }
    {
        match join {
            Join::Merge(offset) => self.merge_with(other, offset),
            Join::Combine(operation) => self.combine_with(other, operation),
        }
    }
}
