// Whether two envelopes are bit-equal, settings and count included: 02's F-2. 000's `eq_exact` is another comparison.
#![tactic(auto)]

ghost use Rattle.std.specs.Prelude.{◌≡◌};
ghost use Rattle.points.specs.Points.{every_pair};
ghost use Rattle.equal.specs.Equal.{bit_equal_limit, bit_equal_curve, bit_equal_point, bit_equal_settings, bit_equal};

use curve::CurveType;
use envelope::AutomationEnvelope;
use points::AutomationPoint;
use std::num::{f32_to_bits_with_nan, f64_to_bits_with_nan};

// Closures: the check does not admit this function of the library by its name.
fn same_limit(a: Option<f32>, b: Option<f32>) -> bool
    ensures { result ≡ bit_equal_limit a b }
{
    a.map(|x| f32_to_bits_with_nan(x)) == b.map(|y| f32_to_bits_with_nan(y))
}

// The controls of all but Bezier are 0.0.
fn same_curve(c: CurveType, d: CurveType) -> bool
    ensures { result ≡ bit_equal_curve c d }
{
    let (a, b) = (c.controls(), d.controls());
    (c.code() == d.code())
        & (f32_to_bits_with_nan(a.cp1) == f32_to_bits_with_nan(b.cp1))
        & (f32_to_bits_with_nan(a.cp2) == f32_to_bits_with_nan(b.cp2))
}

fn same_point(p: AutomationPoint, q: AutomationPoint) -> bool
    ensures { result ≡ bit_equal_point p q }
{
    (f64_to_bits_with_nan(p.time) == f64_to_bits_with_nan(q.time))
        & (p.sample_position == q.sample_position)
        & (f32_to_bits_with_nan(p.value) == f32_to_bits_with_nan(q.value))
        & same_curve(p.curve, q.curve)
}

// All but the points, and how many they are.
fn same_settings(a: &AutomationEnvelope, b: &AutomationEnvelope) -> bool
    ensures { result ≡ bit_equal_settings a.now b.now }
{
    (a.target == b.target)
        & (a.enabled == b.enabled)
        & (a.hard == b.hard)
        & same_limit(a.min_value, b.min_value)
        & same_limit(a.max_value, b.max_value)
        & same_limit(a.step_size, b.step_size)
        & (a.points.count == b.points.count)
}

// As many points, and each with the other's bits. It ends at the first that hasn't. The lengths again, since of lent points it is not known that as many are counted.
#[tactic(auto, using(points::proofs::SliceLaws::pairs_uneven, points::proofs::SliceLaws::pairs_all))]
fn same_points(points: &[AutomationPoint], others: &[AutomationPoint]) -> bool
    ensures { result ≡ every_pair bit_equal_point points.now others.now }
{
    if points.len() != others.len() {
        return false;
    }
    points.iter().zip(others).all(|(p, q)| same_point(*p, *q))
}

#[tactic(auto, unfolding(crate::specs::Equal::bit_equal))]
pub fn bit_equal(a: &AutomationEnvelope, b: &AutomationEnvelope) -> bool
    ensures { result ≡ bit_equal a.now b.now }
{
    if !same_settings(a, b) {
        return false;
    }
    same_points(a.points.as_slice(), b.points.as_slice())
}
