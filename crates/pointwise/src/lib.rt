// The edits of 000 that change each point by itself. Source: envelope.rs (000).
#![tactic(auto)]

ghost use Rattle.std.specs.Prelude.{◌≡◌, ◌≤◌, ◌&&◌, ◌++◌, length, map, take, drop};
ghost use Rattle.numbers.specs.Bounds.{finite, clamped_to};
ghost use Rattle.curve.specs.Curve.{finite_controls};
ghost use Rattle.points.specs.Points.{list_of};
ghost use Rattle.settle.specs.Settle.{edit_points};
ghost use Rattle.pointwise.specs.Places.{mapped_in, faded_in_places, faded_out_places};
ghost use Rattle.pointwise.specs.Each.{with_time, with_value, fade_fraction, faded_in, faded_out, gated, compressed, changed, scaled_time, lowest_value, highest_value, normalized, first_time, last_time, faded_in_all, faded_out_all, clamped_edit};
ghost use Rattle.pointwise.specs.declared.Change.TheVariants.{Shift, Invert, Scale, Offset, Gate, Compress};

use curve::CurveType;
use points::refusal::Refusal;
use points::{AutomationPoint, Points};
use settle::{finish, keep};

// What 000's loops do to a point. As data, since specs/ names each change by it; a closure's contract would speak of every function that it computes, and ask for a `requires`.
#[derive(Clone, Copy)]
pub enum Change {
    Shift(f64),
    ScaleTime(f64),
    Reflect(f64),
    Quantize(f64),
    Invert(f32, f32),
    Normalize(f32, f32, f32, f32),
    Scale(f32),
    Offset(f32),
    Clamp(f32, f32),
    FadeIn(f64, f64, CurveType),
    FadeOut(f64, f64, CurveType),
    Gate(f32),
    Compress(f32, f32),
}

fn with_time(p: AutomationPoint, time: f64) -> AutomationPoint
    ensures { result ≡ with_time p time }
{
    AutomationPoint { time, ..p }
}

fn with_value(p: AutomationPoint, value: f32) -> AutomationPoint
    ensures { result ≡ with_value p value }
{
    AutomationPoint { value, ..p }
}

// The library's `clamp` asks that the bounds do not cross; these may, where a refusal comes later.
fn clampf(low: f32, high: f32, x: f32) -> f32
    ensures { result ≡ clamped_to low high x }
{
    if x < low {
        return low;
    }
    if x > high {
        return high;
    }
    x
}

#[tactic(auto, unfolding(crate::specs::Each::fade_fraction))]
fn fade_fraction(start: f64, duration: f64, time: f64) -> f32
    ensures { result ≡ fade_fraction start duration time }
{
    let fraction = (time - start) / duration;
    numbers::convert::f64_to_f32(fraction.clamp(0.0, 1.0))
}

// The two fades are two rules of 01: they differ in the comparison, in the place and in what t counts from.
#[tactic(auto, unfolding(crate::specs::Each::faded_in))]
fn faded_in(start: f64, duration: f64, c: CurveType, p: AutomationPoint) -> f32
    ensures { result ≡ faded_in start duration c p }
{
    if p.time <= start + duration {
        p.value * c.interpolate(0.0, 1.0, fade_fraction(start, duration, p.time))
    } else {
        p.value
    }
}

#[tactic(auto, unfolding(crate::specs::Each::faded_out))]
fn faded_out(start: f64, duration: f64, c: CurveType, p: AutomationPoint) -> f32
    ensures { result ≡ faded_out start duration c p }
{
    if p.time >= start {
        p.value * c.interpolate(1.0, 0.0, fade_fraction(start, duration, p.time))
    } else {
        p.value
    }
}

#[tactic(auto, unfolding(crate::specs::Each::gated))]
fn gated(threshold: f32, v: f32) -> f32
    ensures { result ≡ gated threshold v }
{
    if v < threshold { 0.0 } else { v }
}

#[tactic(auto, unfolding(crate::specs::Each::compressed))]
fn compressed(threshold: f32, ratio: f32, v: f32) -> f32
    ensures { result ≡ compressed threshold ratio v }
{
    if v > threshold {
        threshold + (v - threshold) / ratio
    } else {
        v
    }
}

impl Change {
    pub(crate) fn apply(self, p: AutomationPoint) -> AutomationPoint
        ensures { result ≡ changed self p }
    {
        match self {
            Change::Shift(offset) => with_time(p, p.time + offset),
            Change::ScaleTime(factor) => with_time(p, p.time * factor),
            Change::Reflect(max_time) => with_time(p, max_time - p.time),
            Change::Quantize(grid) => with_time(p, (p.time / grid).round() * grid),
            Change::Invert(min, max) => with_value(p, max - (p.value - min)),
            Change::Normalize(low, range, new_min, new_range) => {
                with_value(p, new_min + (p.value - low) / range * new_range)
            }
            Change::Scale(factor) => with_value(p, p.value * factor),
            Change::Offset(amount) => with_value(p, p.value + amount),
            Change::Clamp(min, max) => with_value(p, clampf(min, max, p.value)),
            Change::FadeIn(start, duration, c) => with_value(p, faded_in(start, duration, c, p)),
            Change::FadeOut(start, duration, c) => with_value(p, faded_out(start, duration, c, p)),
            Change::Gate(threshold) => with_value(p, gated(threshold, p.value)),
            Change::Compress(threshold, ratio) => with_value(
                p,
                compressed(threshold, ratio, p.value),
            ),
        }
    }
}

// The first n points changed in their places. It takes n, since over `&mut out.places[..n]` the goal of `map_points` did not close.
fn change_first(places: &mut [AutomationPoint], n: usize, change: Change)
    requires { n ≤ length places.old }
    ensures { places.new ≡ map (changed change) (take n places.old) ++ drop n places.old }
{
    for p in places[..n].iter_mut() {
        *p = change.apply(*p);
    }
}

// Each point changed in its place.
#[tactic(auto, unfolding(crate::specs::Places::mapped_in))]
pub fn map_points(points: &Points, change: Change) -> Points
    ensures { result ≡ mapped_in (changed change) points.now }
{
    let mut out = *points;
    change_first(&mut out.places, points.used(), change);
    out
}

#[tactic(auto, using(crate::proofs::Mapped::mapped_held))]
fn edit_each(points: &Points, ok: bool, change: Change) -> Result<Points, Refusal>
    ensures { result ≡ edit_points points.now ok (map (changed change) (list_of points.now)) }
{
    finish(points, ok, map_points(points, change))
}

pub fn shift_points(points: &Points, offset: f64) -> Result<Points, Refusal>
    ensures { result ≡ edit_points points.now (finite offset) (map (changed (Shift offset)) (list_of points.now)) }
{
    let ok = offset.is_finite();
    edit_each(points, ok, Change::Shift(offset))
}

pub fn scale_time(points: &Points, factor: f64) -> Result<Points, Refusal>
    ensures { result ≡ edit_points points.now (finite factor) (scaled_time factor (list_of points.now)) }
{
    let ok = factor.is_finite();
    if factor > 0.0 {
        edit_each(points, ok, Change::ScaleTime(factor))
    } else {
        keep(points, ok)
    }
}

pub fn invert_values(points: &Points, min: f32, max: f32) -> Result<Points, Refusal>
    ensures { result ≡ edit_points points.now (finite min && finite max) (map (changed (Invert min max)) (list_of points.now)) }
{
    let ok = min.is_finite() & max.is_finite();
    edit_each(points, ok, Change::Invert(min, max))
}

// The least value and the greatest, two folds of 01: one over a closure would have a contract of what that computes.
#[tactic(auto, using(crate::proofs::Values::infinity_is))]
fn lowest_value(points: &Points) -> f32
    ensures { result ≡ lowest_value (list_of points.now) }
{
    points
        .as_slice()
        .iter()
        .copied()
        .fold(f32::INFINITY, |v, p| numbers::order::min(v, p.value))
}

#[tactic(auto, using(crate::proofs::Values::neg_infinity_is))]
fn highest_value(points: &Points) -> f32
    ensures { result ≡ highest_value (list_of points.now) }
{
    points
        .as_slice()
        .iter()
        .copied()
        .fold(f32::NEG_INFINITY, |v, p| numbers::order::max(v, p.value))
}

pub fn normalize(points: &Points, new_min: f32, new_max: f32) -> Result<Points, Refusal>
    ensures { result ≡ edit_points points.now (finite new_min && finite new_max) (normalized new_min new_max (list_of points.now)) }
{
    let ok = new_min.is_finite() & new_max.is_finite();
    let low = lowest_value(points);
    let range = highest_value(points) - low;
    if range > 0.0 {
        edit_each(
            points,
            ok,
            Change::Normalize(low, range, new_min, new_max - new_min),
        )
    } else {
        keep(points, ok)
    }
}

pub fn scale(points: &Points, factor: f32) -> Result<Points, Refusal>
    ensures { result ≡ edit_points points.now (finite factor) (map (changed (Scale factor)) (list_of points.now)) }
{
    let ok = factor.is_finite();
    edit_each(points, ok, Change::Scale(factor))
}

pub fn offset(points: &Points, amount: f32) -> Result<Points, Refusal>
    ensures { result ≡ edit_points points.now (finite amount) (map (changed (Offset amount)) (list_of points.now)) }
{
    let ok = amount.is_finite();
    edit_each(points, ok, Change::Offset(amount))
}

pub fn apply_gate(points: &Points, threshold: f32) -> Result<Points, Refusal>
    ensures { result ≡ edit_points points.now (finite threshold) (map (changed (Gate threshold)) (list_of points.now)) }
{
    let ok = threshold.is_finite();
    edit_each(points, ok, Change::Gate(threshold))
}

pub fn apply_compression(points: &Points, threshold: f32, ratio: f32) -> Result<Points, Refusal>
    ensures { result ≡ edit_points points.now (finite threshold && finite ratio) (map (changed (Compress threshold ratio)) (list_of points.now)) }
{
    let ok = threshold.is_finite() & ratio.is_finite();
    edit_each(points, ok, Change::Compress(threshold, ratio))
}

// The first time and the last, where there is a point.
fn first_time(points: &Points) -> f64
    ensures { result ≡ first_time (list_of points.now) }
{
    points.as_slice().first().map_or(0.0, |p| p.time)
}

#[tactic(auto, using(crate::proofs::Values::last_time_is))]
pub fn last_time(points: &Points) -> f64
    ensures { result ≡ last_time (list_of points.now) }
{
    points.as_slice().last().map_or(0.0, |p| p.time)
}

// The fades over all points, two rules of 01 as the fades of one point are.
fn faded_in_all(points: &Points, duration: f64, curve: CurveType) -> Points
    ensures { result ≡ faded_in_places duration curve points.now }
{
    if duration <= 0.0 {
        return *points;
    }
    map_points(points, Change::FadeIn(first_time(points), duration, curve))
}

fn faded_out_all(points: &Points, duration: f64, curve: CurveType) -> Points
    ensures { result ≡ faded_out_places duration curve points.now }
{
    if duration <= 0.0 {
        return *points;
    }
    let start = last_time(points) - duration;
    map_points(points, Change::FadeOut(start, duration, curve))
}

#[tactic(auto, using(crate::proofs::Mapped::faded_in_held))]
pub fn apply_fade_in(points: &Points, duration: f64, curve: CurveType) -> Result<Points, Refusal>
    ensures { result ≡ edit_points points.now (finite duration && finite_controls curve) (faded_in_all duration curve (list_of points.now)) }
{
    let ok = duration.is_finite() & curve.is_finite();
    finish(points, ok, faded_in_all(points, duration, curve))
}

#[tactic(auto, using(crate::proofs::Mapped::faded_out_held))]
pub fn apply_fade_out(points: &Points, duration: f64, curve: CurveType) -> Result<Points, Refusal>
    ensures { result ≡ edit_points points.now (finite duration && finite_controls curve) (faded_out_all duration curve (list_of points.now)) }
{
    let ok = duration.is_finite() & curve.is_finite();
    finish(points, ok, faded_out_all(points, duration, curve))
}

// The fade out takes the last time after the fade in, which changes no time.
#[tactic(auto, using(crate::proofs::Mapped::fades_held))]
pub fn apply_fades(
    points: &Points,
    fade_in_duration: f64,
    fade_out_duration: f64,
    curve: CurveType,
) -> Result<Points, Refusal>
    ensures { result ≡ edit_points points.now (finite fade_in_duration && finite fade_out_duration && finite_controls curve) (faded_out_all fade_out_duration curve (faded_in_all fade_in_duration curve (list_of points.now))) }
{
    let ok = fade_in_duration.is_finite() & fade_out_duration.is_finite() & curve.is_finite();
    let faded = faded_in_all(points, fade_in_duration, curve);
    finish(points, ok, faded_out_all(&faded, fade_out_duration, curve))
}

#[tactic(auto, unfolding(crate::specs::Each::clamped_edit, settle::specs::Settle::edit_points, settle::specs::Settle::judged, points::specs::Checks::first_failing))]
pub fn clamp_values(points: &Points, min: f32, max: f32) -> Result<Points, Refusal>
    ensures { result ≡ clamped_edit points.now min max }
{
    let ok = min.is_finite() & max.is_finite();
    if ok && min > max && points.is_valid() {
        return Err(Refusal::BoundsCross);
    }
    edit_each(points, ok, Change::Clamp(min, max))
}
