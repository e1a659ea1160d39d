// A lookup on either axis, the times or the samples.
ghost use Rattle.std.specs.Prelude.{ℕ, Bool, Float, Option, ◌≡◌, ◌-◌, true, length, map, IfSome};
ghost use Rattle.points.specs.Points.{list_of, rising_by};
ghost use Rattle.points.specs.Search.{place_by};
ghost use Rattle.points.specs.declared.AutomationPoint.{AutomationPoint};
ghost use Rattle.lookup.specs.Keys.{EndsAt};
ghost use Rattle.lookup.specs.Lookup.{point_at, around, around_at, surrounded, found, ended, heard};

use crate::{Heard, place};
use points::AutomationPoint;

// What points are looked up by: a time in seconds, or the number of a sample.
pub trait Axis: Copy {
    ghost key_of: { AutomationPoint → ℕ };

    ghost key: { Self → ℕ };

    ghost early: { Self → AutomationPoint → Bool };

    ghost late: { Self → AutomationPoint → Bool };

    ghost way: { Self → AutomationPoint → AutomationPoint → Float };

    // A point's key; the keys rise from point to point.
    fn key_of(p: AutomationPoint) -> u64
        ensures { result ≡ key_of p };

    // The key that a search looks for.
    fn key(self) -> u64
        ensures { result ≡ key self };

    // Whether the first point's value is heard.
    fn is_early(self, first: AutomationPoint) -> bool
        ensures { result ≡ early self first };

    // Whether the last point's value is heard.
    fn is_late(self, last: AutomationPoint) -> bool
        ensures { result ≡ late self last };

    // The value on the way from p to q.
    fn way(self, p: AutomationPoint, q: AutomationPoint) -> f32
        ensures { result ≡ way self p q };
}

// Where a search ends, whatever the order of the keys: the key before is below the one sought, and the key there is not. Of keys that rise there is one such place.
#[tactic(auto, using(crate::proofs::KeyLaws::ends_where))]
pub fn place<A: Axis>(points: &[AutomationPoint], at: A) -> usize
    ensures ends { EndsAt (map A.key_of points.now) (length points.now) (A.key at) result }
    ensures rising { rising_by A.key_of points.now ≡ true → result ≡ place_by A.key_of (A.key at) points.now }
{
    place::halve(points.len(), at.key(), |i| A::key_of(points[i]))
}

// That place, if it lies between two points and a search ends there, of keys that rise.
#[tactic(auto, using(crate::proofs::KeyLaws::between_is))]
pub(crate) fn guessed<A: Axis>(points: &[AutomationPoint], at: A, guess: usize) -> Option<usize>
    ensures { IfSome result (λ i. rising_by A.key_of points.now ≡ true → i ≡ place_by A.key_of (A.key at) points.now) }
{
    let key = at.key();
    let q = points.get(guess)?;
    let p = points.get(guess.checked_sub(1)?)?;
    if A::key_of(*p) < key && key <= A::key_of(*q) {
        return Some(guess);
    }
    None
}

// The value around the place i that a search ended at: that of the point there if it has the key, else the one on the way to it.
pub fn around<A: Axis>(points: &[AutomationPoint], at: A, i: usize) -> Option<f32>
    ensures { result ≡ around A.key_of (A.key at) (A.way at) (length points.now) i (point_at points.now (i - 1)) (point_at points.now i) }
{
    let q = points.get(i)?;
    if A::key_of(*q) == at.key() {
        return Some(at.way(*q, *q));
    }
    let p = points.get(i.checked_sub(1)?)?;
    Some(at.way(*p, *q))
}

// The value before the constraints. Between the first point and the last `place` is asked where a search ends, and `inner` is what is found there.
#[tactic(auto, using(crate::proofs::LookupLaws::found_between))]
fn raw<A: Axis, F: FnOnce() -> usize>(points: &[AutomationPoint], at: A, place: F) -> Option<f32>
    requires { F.IsAlwaysCallable place }
    ensures { (inner : Option Float) → ((i : ℕ) → F.post place i → around_at A.key_of (A.key at) (A.way at) points.now i ≡ inner)
        → result ≡ found ended (A.early at) (A.late at) inner points.now }
{
    match points {
        [] => None,
        [p] => Some(p.value),
        [first, ..] if at.is_early(*first) => Some(first.value),
        [.., last] if at.is_late(*last) => Some(last.value),
        _ => around(points, at, place()),
    }
}

impl Heard<'_> {
    // What is heard at a time or a sample. `place` says where a search for it ends, where that has to be known, and `inner` is what is found there.
    pub(crate) fn value_at<A: Axis, F: FnOnce() -> usize>(&self, at: A, place: F) -> Option<f32>
        requires { F.IsAlwaysCallable place }
        ensures { (inner : Option Float)
            → (self.now.enabled ≡ true → (i : ℕ) → F.post place i → around_at A.key_of (A.key at) (A.way at) (list_of self.now.points) i ≡ inner)
            → result ≡ heard self.now.enabled self.now.limits (found ended (A.early at) (A.late at) inner (list_of self.now.points)) }
    {
        if !self.enabled {
            return None;
        }
        let limits = self.limits;
        raw(self.points(), at, place).map(|v| limits.apply_constraints(v))
    }
}
