// The edits of 000 that put points in. Source: envelope.rs (000).
#![tactic(auto)]

ghost use Rattle.std.specs.Prelude.{◌≡◌, true, ◌&&◌, ◌≤◌, [], ◌∷◌, length, OnOk};
ghost use Rattle.numbers.specs.Bounds.{finite};
ghost use Rattle.curve.specs.Curve.{finite_controls};
ghost use Rattle.curve.specs.F32.{f0, f1};
ghost use Rattle.points.specs.Point.{finite_point};
ghost use Rattle.points.specs.Points.{every, rising, list_of, holding, valid_points};
ghost use Rattle.points.specs.Fitted.{room_for, fitted};
ghost use Rattle.settle.specs.Settle.{settle, edit_points};
ghost use Rattle.insert.specs.Insert.{insert_point, insert_all, merged_points, ramp_list, pulse_list};
ghost use Rattle.insert.specs.Inserted.{Sorted, GoesTo};

use curve::CurveType;
use points::refusal::Refusal;
use points::{AutomationPoint, Points};
use pointwise::{Change, map_points};

// Where a point goes by its time: to the one at the very same time, or before the later ones.
fn place_of(points: &[AutomationPoint], p: AutomationPoint) -> Result<usize, usize>
    requires { rising points.now ≡ true }
    ensures { GoesTo p points.now result }
{
    points.binary_search_by_key(&p.key(), |q| q.key())
}

// A point at its place. No method of points: one open to callers has no `requires`, so it would need an answer for a place past the count and for a full list too.
#[tactic(auto, using(crate::proofs::Inserting::put_there, crate::proofs::Inserting::make_way))]
fn insert_point(points: &mut Points, p: AutomationPoint) -> Result<(), Refusal>
    requires { Sorted points.old }
    ensures answer { result ≡ room_for (insert_point p (list_of points.old)) }
    ensures made { OnOk result (points.new ≡ holding (insert_point p (list_of points.old))) }
{
    let n = points.count;
    match place_of(points.as_slice(), p) {
        Ok(at) => points.places[at] = p,
        Err(_) if n == 256 => return Err(Refusal::TooManyPoints),
        Err(at) => {
            points.places.copy_within(at..n, at + 1);
            points.places[at] = p;
            points.count = n + 1;
        }
    }
    Ok(())
}

// Each of the new points in turn.
fn insert_all(points: &Points, new: &[AutomationPoint]) -> Result<Points, Refusal>
    requires { Sorted points.now }
    ensures { result ≡ fitted (insert_all (list_of points.now) new.now) }
{
    let mut made = *points;
    for p in new {
        insert_point(&mut made, *p)?;
    }
    Ok(made)
}

// Replaces at bit-equal time, else inserts.
#[tactic(auto, using(crate::proofs::Ends::adding), unfolding(settle::specs::Settle::edit_points, settle::specs::Settle::judged, points::specs::Checks::first_failing))]
pub fn add_point(points: &Points, p: AutomationPoint) -> Result<Points, Refusal>
    ensures { result ≡ edit_points points.now (finite_point p) (insert_point p (list_of points.now)) }
{
    points.check()?;
    if !p.is_finite() {
        return Err(Refusal::NotFinite);
    }
    insert_all(points, &[p])
}

// The other's points, each at its time plus the offset; positions stay.
#[tactic(auto, using(crate::proofs::Ends::merging), unfolding(crate::specs::Insert::merged_points, settle::specs::Settle::judged, points::specs::Checks::first_failing))]
pub fn merge(points: &Points, other: &Points, offset: f64) -> Result<Points, Refusal>
    ensures { result ≡ merged_points points.now other.now offset }
{
    points.check()?;
    other.check()?;
    if !offset.is_finite() {
        return Err(Refusal::NotFinite);
    }
    let shifted = map_points(other, Change::Shift(offset));
    if !shifted.all_finite() {
        return Err(Refusal::NotFinite);
    }
    insert_all(points, shifted.as_slice())
}

// The points inserted one by one where there are none. If their times rise, as those of a ramp or a pulse do as a rule, that gives them as they are, and none is searched for.
fn in_order(new: &[AutomationPoint]) -> Result<Points, Refusal>
    ensures { result ≡ fitted (insert_all [] new.now) }
{
    if new.is_sorted_by(|p, q| p.key() < q.key()) {
        return Points::from_slice(new);
    }
    insert_all(&points::list::none(), new)
}

#[tactic(auto, using(crate::proofs::Ends::ramped), unfolding(settle::specs::Settle::edit_points, settle::specs::Settle::judged, points::specs::Checks::first_failing))]
pub fn ramp(
    points: &Points,
    duration: f64,
    start: f32,
    end_value: f32,
    curve: CurveType,
) -> Result<Points, Refusal>
    ensures { result ≡ edit_points points.now (finite duration && finite start && finite end_value && finite_controls curve) (ramp_list duration start end_value curve) }
{
    let ok = duration.is_finite() & start.is_finite() & end_value.is_finite() & curve.is_finite();
    points.check()?;
    if !ok {
        return Err(Refusal::NotFinite);
    }
    let first = AutomationPoint::new(0.0, start);
    let last = AutomationPoint::with_curve(duration, end_value, curve);
    in_order(&[first, last])
}

// 000's two names over one ramp.
#[tactic(auto, using(crate::proofs::Ends::fading))]
pub fn fade_in(points: &Points, duration: f64, curve: CurveType) -> Result<Points, Refusal>
    ensures { result ≡ edit_points points.now (finite duration && finite_controls curve) (ramp_list duration f0 f1 curve) }
{
    ramp(points, duration, 0.0, 1.0, curve)
}

#[tactic(auto, using(crate::proofs::Ends::fading))]
pub fn fade_out(points: &Points, duration: f64, curve: CurveType) -> Result<Points, Refusal>
    ensures { result ≡ edit_points points.now (finite duration && finite_controls curve) (ramp_list duration f1 f0 curve) }
{
    ramp(points, duration, 1.0, 0.0, curve)
}

// Attack, sustain, release.
#[tactic(auto, using(crate::proofs::Ends::pulsing), unfolding(settle::specs::Settle::edit_points, settle::specs::Settle::judged, points::specs::Checks::first_failing))]
pub fn pulse(
    points: &Points,
    fade_in: f64,
    sustain: f64,
    fade_out: f64,
    curve: CurveType,
) -> Result<Points, Refusal>
    ensures { result ≡ edit_points points.now (finite fade_in && finite sustain && finite fade_out && finite_controls curve) (pulse_list fade_in sustain fade_out curve) }
{
    let ok = fade_in.is_finite() & sustain.is_finite() & fade_out.is_finite() & curve.is_finite();
    let a = AutomationPoint::new(0.0, 0.0);
    let b = AutomationPoint::with_curve(fade_in, 1.0, curve);
    let c = AutomationPoint::new(fade_in + sustain, 1.0);
    let d = AutomationPoint::with_curve(fade_in + sustain + fade_out, 0.0, curve);
    points.check()?;
    if !(ok & c.is_finite() & d.is_finite()) {
        return Err(Refusal::NotFinite);
    }
    in_order(&[a, b, c, d])
}
