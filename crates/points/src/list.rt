// The list of points: 256 places and a count.
ghost use Rattle.std.specs.Prelude.{◌≡◌, [], length, min, true, if◌then◌else◌};
ghost use Rattle.points.specs.declared.refusal.Refusal.TheVariants.{NotValid};
ghost use Rattle.points.specs.Point.{finite_point, is_unused, matching};
ghost use Rattle.points.specs.Points.{list_of, rest_of, holding, with_more, every, every_pair, rising, valid_points};

use crate::refusal::Refusal;
use crate::{AutomationPoint, Points};

// No points.
pub fn none() -> Points
    ensures { result ≡ holding [] }
{
    Points {
        count: 0,
        places: [crate::point::unused(); 256],
    }
}

impl Points {
    // One more behind the others, where there is a place left.
    pub fn push(&mut self, p: AutomationPoint)
        ensures { self.new ≡ with_more self.old p }
    {
        if self.count < 256 {
            self.places[self.count] = p;
            self.count += 1;
        }
    }

    // How many places hold points.
    pub fn used(&self) -> usize
        ensures { result ≡ min self.now.count 256 }
    {
        self.count.min(256)
    }

    // The places that hold points.
    pub fn as_slice(&self) -> &[AutomationPoint]
        ensures { result.now ≡ list_of self.now }
    {
        &self.places[..self.used()]
    }

    // The places past the count.
    pub fn rest(&self) -> &[AutomationPoint]
        ensures { result.now ≡ rest_of self.now }
    {
        &self.places[self.used()..]
    }

    pub fn all_finite(&self) -> bool
        ensures { result ≡ every finite_point (list_of self.now) }
    {
        self.as_slice().iter().all(|p| p.is_finite())
    }

    #[tactic(auto, using(crate::proofs::SliceLaws::rises_by))]
    pub fn times_rise(&self) -> bool
        ensures { result ≡ rising (list_of self.now) }
    {
        self.as_slice().is_sorted_by(|p, q| p.key() < q.key())
    }

    // Whether the places past the count are as new ones.
    pub fn rest_unused(&self) -> bool
        ensures { result ≡ every is_unused (rest_of self.now) }
    {
        self.rest().iter().all(|p| p.is_unused())
    }

    #[tactic(auto, unfolding(crate::specs::Points::valid_points))]
    pub fn is_valid(&self) -> bool
        ensures { result ≡ valid_points self.now }
    {
        (self.count <= 256) && (self.all_finite() & self.times_rise() & self.rest_unused())
    }

    // 1 unless the points are valid. Valid ones are what holds their list.
    #[tactic(auto, using(crate::proofs::ValidLaws::holding_list_of))]
    pub fn check(&self) -> Result<(), Refusal>
        ensures answer { result ≡ (if valid_points self.now then Ok tt else Err NotValid) }
        ensures held { valid_points self.now ≡ true → holding (list_of self.now) ≡ self.now }
    {
        if self.is_valid() {
            Ok(())
        } else {
            Err(Refusal::NotValid)
        }
    }

    // As many points, and each like the other's. `exact` is a flag as in specs/ and in 000's two names; a closure in its place would ask for a contract of its own.
    #[tactic(auto, using(crate::proofs::SliceLaws::pairs_uneven))]
    pub fn same(&self, other: &Points, exact: bool) -> bool
        ensures { result ≡ every_pair (matching exact) (list_of self.now) (list_of other.now) }
    {
        let (points, others) = (self.as_slice(), other.as_slice());
        if points.len() != others.len() {
            return false;
        }
        all_match(points, others, exact)
    }
}

// The test of a pair of points: the curve too, or the curve aside.
fn match_points(p: AutomationPoint, q: AutomationPoint, exact: bool) -> bool
    ensures { result ≡ matching exact p q }
{
    if exact { p.same_exact(q) } else { p.same(q) }
}

// Of as many points: whether each is like the other's.
#[tactic(auto, using(crate::proofs::SliceLaws::pairs_all))]
fn all_match(points: &[AutomationPoint], others: &[AutomationPoint], exact: bool) -> bool
    requires { length points.now ≡ length others.now }
    ensures { result ≡ every_pair (matching exact) points.now others.now }
{
    points
        .iter()
        .zip(others)
        .all(|(p, q)| match_points(*p, *q, exact))
}
