// The edits of 000 that change which points there are. Each builds its points anew. Source: envelope.rs (000).
#![tactic(auto)]

ghost use Rattle.std.specs.Prelude.{◌≡◌, true, ◌&&◌, ◌<◌, length, position, remove, reverse};
ghost use Rattle.std.specs.Iterator.{IsFinite};
ghost use Rattle.std.specs.Iterator.Runs.{WholeRun};
ghost use Rattle.numbers.specs.Bounds.{finite};
ghost use Rattle.points.specs.Middles.{middle_if};
ghost use Rattle.points.specs.Points.{list_of, holding, fitting};
ghost use Rattle.settle.specs.Settle.{edit_points};
ghost use Rattle.settle.specs.Finish.{Makes};
ghost use Rattle.shape.specs.Neighbours.{later, without_repeats};
ghost use Rattle.shape.specs.Shape.{keep_if, inside, remove_first, near, reversed, quantized, differs, simplified};

use points::refusal::Refusal;
use points::{AutomationPoint, Points};
use pointwise::{Change, last_time, map_points};
use settle::{finish, keep};
use std::iter::once;

// The first 256 items, in their order. It asks of the items what the library's `collect` asks, and is no FromIterator, which allocates and can fail.
fn collected<I: Iterator<Item = AutomationPoint> + Drop>(items: I) -> Points
    requires can { I.can_next items }
    requires finite { IsFinite (I.remaining items) }
    ensures runs { WholeRun I.next_gives items (λ p. result ≡ holding (fitting p.items)) }
{
    let mut out = points::list::none();
    for p in items {
        out.push(p);
    }
    out
}

fn is_inside(p: AutomationPoint, start_time: f64, end_time: f64) -> bool
    ensures { result ≡ inside start_time end_time p }
{
    (start_time <= p.time) & (p.time <= end_time)
}

fn kept_inside(points: &[AutomationPoint], start_time: f64, end_time: f64) -> Points
    ensures { result ≡ holding (fitting (keep_if (inside start_time end_time) points.now)) }
{
    collected(
        points
            .iter()
            .copied()
            .filter(|p| is_inside(*p, start_time, end_time)),
    )
}

#[tactic(auto, using(crate::proofs::Held::filter_held))]
pub fn trim(points: &Points, start_time: f64, end_time: f64) -> Result<Points, Refusal>
    ensures { result ≡ edit_points points.now (finite start_time && finite end_time) (keep_if (inside start_time end_time) (list_of points.now)) }
{
    let ok = start_time.is_finite() & end_time.is_finite();
    finish(
        points,
        ok,
        kept_inside(points.as_slice(), start_time, end_time),
    )
}

#[tactic(auto, using(points::proofs::FloatLaws::abs_is))]
fn is_near(p: AutomationPoint, time: f64) -> bool
    ensures { result ≡ near time p }
{
    (p.time - time).abs() < 0.001
}

fn place_near(points: &[AutomationPoint], time: f64) -> Option<usize>
    ensures { result ≡ position (near time) points.now }
{
    points.iter().position(|p| is_near(*p, time))
}

fn without(points: &[AutomationPoint], at: usize) -> Points
    requires { at < length points.now }
    ensures { result ≡ holding (fitting (remove points.now at)) }
{
    collected(points[..at].iter().chain(&points[at + 1..]).copied())
}

#[tactic(auto, using(crate::proofs::Kept::remove_none))]
pub fn remove_point_at(points: &Points, time: f64) -> Result<Points, Refusal>
    ensures { result ≡ edit_points points.now (finite time) (remove_first (near time) (list_of points.now)) }
{
    let ok = time.is_finite();
    match place_near(points.as_slice(), time) {
        Some(at) => finish(points, ok, without(points.as_slice(), at)),
        None => keep(points, ok),
    }
}

fn turned(points: &[AutomationPoint]) -> Points
    ensures { result ≡ holding (fitting (reverse points.now)) }
{
    collected(points.iter().rev().copied())
}

// Each time becomes the last time less it, and the order turns; a point keeps its curve.
#[tactic(auto, using(crate::proofs::Held::reversed_held))]
pub fn reverse(points: &Points) -> Result<Points, Refusal>
    ensures { result ≡ edit_points points.now true (reversed (list_of points.now)) }
{
    let reflected = map_points(points, Change::Reflect(last_time(points)));
    finish(points, true, turned(reflected.as_slice()))
}

// The second of two neighbours, where it has a time of its own.
fn later(pair: &[AutomationPoint]) -> Option<AutomationPoint>
    ensures { result ≡ later pair.now }
{
    match pair {
        [p, q] if p.key() != q.key() => Some(*q),
        _ => None,
    }
}

// A point goes where the one before it has its time. Quantized times do not fall, so the first of equal ones stays.
fn without_repeats(points: &[AutomationPoint]) -> Points
    ensures { result ≡ holding (fitting (without_repeats points.now)) }
{
    let first = points.iter().take(1).copied();
    collected(first.chain(points.windows(2).filter_map(later)))
}

// What quantizing makes of valid points. They come by value, since what a reference lends is not known to hold `f64`s.
fn on_grid(points: Points, grid: f64) -> Points
    ensures { Makes points (finite grid) result (quantized grid (list_of points)) }
{
    if grid <= 0.0 {
        return points;
    }
    let moved = map_points(&points, Change::Quantize(grid));
    without_repeats(moved.as_slice())
}

pub fn quantize_time(points: &Points, grid: f64) -> Result<Points, Refusal>
    ensures { result ≡ edit_points points.now (finite grid) (quantized grid (list_of points.now)) }
{
    let ok = grid.is_finite();
    finish(points, ok, on_grid(*points, grid))
}

// Whether a point differs by more than the tolerance from what its neighbours give at its time.
#[tactic(auto, using(points::proofs::FloatLaws::abs_is), unfolding(crate::specs::Shape::differs))]
fn differs(
    tolerance: f32,
    prev: AutomationPoint,
    curr: AutomationPoint,
    next: AutomationPoint,
) -> bool
    ensures { result ≡ differs tolerance prev curr next }
{
    let t = numbers::convert::f64_to_f32((curr.time - prev.time) / (next.time - prev.time));
    let expected = prev.curve.interpolate(prev.value, next.value, t);
    (curr.value - expected).abs() > tolerance
}

// The middle one of three, where it differs.
fn differing(three: &[AutomationPoint], tolerance: f32) -> Option<AutomationPoint>
    ensures { result ≡ middle_if (differs tolerance) three.now }
{
    match three {
        [prev, curr, next] if differs(tolerance, *prev, *curr, *next) => Some(*curr),
        _ => None,
    }
}

fn kept_differing(points: &Points, tolerance: f32) -> Points
    ensures { result ≡ holding (fitting (simplified tolerance (list_of points.now))) }
{
    let points = points.as_slice();
    let [first, .., last] = points else {
        return collected(points.iter().copied());
    };
    let inner = points
        .windows(3)
        .filter_map(|three| differing(three, tolerance));
    collected(once(*first).chain(inner).chain(once(*last)))
}

#[tactic(auto, using(crate::proofs::Held::simplified_held))]
pub fn simplify(points: &Points, tolerance: f32) -> Result<Points, Refusal>
    ensures { result ≡ edit_points points.now (finite tolerance) (simplified tolerance (list_of points.now)) }
{
    let ok = tolerance.is_finite();
    finish(points, ok, kept_differing(points, tolerance))
}
