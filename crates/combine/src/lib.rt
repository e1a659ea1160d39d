// The six combinations of two envelopes, over what is heard of each. Source: envelope.rs (000), `combine` and its uses.
#![tactic(auto)]

ghost use Rattle.std.specs.Prelude.{◌≡◌};
ghost use Rattle.numbers.specs.Order.{order_key};
ghost use Rattle.points.specs.Points.{list_of, time_key};
ghost use Rattle.points.specs.Search.{place_by};
ghost use Rattle.settle.specs.Settle.{settle};
ghost use Rattle.combine.specs.Combine.{finite_operation, applied, combined_point, combined_list, combined_points};
ghost use Rattle.combine.specs.Walk.{next_time, past};

use limits::Limits;
use lookup::{Heard, Valid};
use points::refusal::Refusal;
use points::{AutomationPoint, Points};

// 000's closures, by name.
#[derive(Clone, Copy, Debug, PartialEq)]
pub enum Operation {
    Blend(f32),
    Add,
    Multiply,
    Min,
    Max,
    Subtract,
}

// What a combination takes of an envelope, as a value of its own.
#[derive(Clone, Copy)]
pub struct Side {
    pub points: Points,
    pub enabled: bool,
    pub limits: Limits,
}

impl Operation {
    fn is_finite(self) -> bool
        ensures { result ≡ finite_operation self }
    {
        match self {
            Operation::Blend(factor) => factor.is_finite(),
            _ => true,
        }
    }

    fn apply(self, a: f32, b: f32) -> f32
        ensures { result ≡ applied self a b }
    {
        match self {
            Operation::Blend(factor) => {
                let k = factor.clamp(0.0, 1.0);
                a * (1.0 - k) + b * k
            }
            Operation::Add => a + b,
            Operation::Multiply => a * b,
            Operation::Min => numbers::order::min(a, b),
            Operation::Max => numbers::order::max(a, b),
            Operation::Subtract => a - b,
        }
    }
}

impl Side {
    // The same lent, as `combine` takes it.
    pub fn heard(&self) -> Heard<'_>
        ensures { result ≡ record { points = self.now.points; enabled = self.now.enabled; limits = self.now.limits } }
    {
        Heard {
            points: &self.points,
            enabled: self.enabled,
            limits: self.limits,
        }
    }
}

// The first time of either list.
#[tactic(auto, unfolding(crate::specs::Walk::next_time))]
fn next_time(points: &[AutomationPoint], others: &[AutomationPoint]) -> Option<f64>
    ensures { result ≡ next_time points.now others.now }
{
    match (points, others) {
        ([p, ..], [q, ..]) if q.key() < p.key() => Some(q.time),
        ([p, ..], _) => Some(p.time),
        (_, [q, ..]) => Some(q.time),
        _ => None,
    }
}

// The points after the first one, if that has this key.
#[tactic(auto, unfolding(crate::specs::Walk::past))]
fn past(points: &[AutomationPoint], key: u64) -> &[AutomationPoint]
    ensures { result.now ≡ past key points.now }
{
    match points {
        [p, rest @ ..] if p.key() == key => rest,
        _ => points,
    }
}

// The point at a time, given the places at which a search for it ends in either side.
fn combined_point(
    operation: Operation,
    first: &Valid,
    other: &Valid,
    time: f64,
    i: usize,
    j: usize,
) -> AutomationPoint
    requires left { i ≡ place_by time_key (order_key time) (list_of first.now.points) }
    requires right { j ≡ place_by time_key (order_key time) (list_of other.now.points) }
    ensures { result ≡ combined_point operation first.now other.now time }
{
    let x = first.value_near(time, i).unwrap_or(0.0);
    let y = other.value_near(time, j).unwrap_or(0.0);
    AutomationPoint::new(time, operation.apply(x, y))
}

// A point at each time of either side. All times are walked, past 256 too: 3 comes before 5.
// A `while`: an iterator over both lists would be one of ours, with the places besides the times, and no plainer.
fn walk(operation: Operation, first: &Valid, other: &Valid) -> Result<Points, Refusal>
    ensures { result ≡ settle (combined_list operation first.now other.now) }
{
    let (firsts, seconds) = (first.points(), other.points());
    let (mut points, mut others) = (firsts, seconds);
    let mut made = points::list::none();
    let mut fits = true;
    while let Some(time) = next_time(points, others) {
        let (i, j) = (firsts.len() - points.len(), seconds.len() - others.len());
        let p = combined_point(operation, first, other, time, i, j);
        if !p.is_finite() {
            return Err(Refusal::NotFinite);
        }
        // the count beside `push`: what has no place is no refusal yet, since 3 at a later time comes first
        fits &= made.count < 256;
        made.push(p);
        let key = p.key();
        points = past(points, key);
        others = past(others, key);
    }
    if fits {
        Ok(made)
    } else {
        Err(Refusal::TooManyPoints)
    }
}

// 000's combine: the operation on both values, at every time of either.
#[tactic(auto, using(crate::proofs::Combining::combination), unfolding(crate::specs::Combine::combined_points, settle::specs::Settle::judged, points::specs::Checks::first_failing))]
pub fn combine(operation: Operation, first: &Heard, other: &Heard) -> Result<Points, Refusal>
    ensures { result ≡ combined_points operation first.now other.now }
{
    let first = first.valid()?;
    let other = other.valid()?;
    if !operation.is_finite() {
        return Err(Refusal::NotFinite);
    }
    walk(operation, &first, &other)
}
