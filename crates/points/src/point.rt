// One point: its tests, and 000's two equalities.
ghost use Rattle.std.specs.Prelude.{◌≡◌};
ghost use Rattle.points.specs.Refusal.{said};
ghost use Rattle.points.specs.Point.{finite_point, is_unused, unused, point_with, same_point, same_point_exact, points_equal};
ghost use Rattle.points.specs.Points.{time_key};
ghost use Rattle.curve.specs.declared.CurveType.TheVariants.{Linear};

use crate::AutomationPoint;
use crate::refusal::Refusal;
use curve::CurveType;

// What a place past the count holds.
pub fn unused() -> AutomationPoint
    ensures { result ≡ unused }
{
    AutomationPoint {
        time: 0.0,
        sample_position: None,
        value: 0.0,
        curve: CurveType::Linear,
    }
}

impl AutomationPoint {
    // No position.
    pub fn with_curve(time: f64, value: f32, curve: CurveType) -> AutomationPoint
        ensures { result ≡ point_with time value curve }
    {
        AutomationPoint {
            time,
            sample_position: None,
            value,
            curve,
        }
    }

    pub fn new(time: f64, value: f32) -> AutomationPoint
        ensures { result ≡ point_with time value Linear }
    {
        AutomationPoint::with_curve(time, value, CurveType::Linear)
    }

    // Where it stands in the order of times.
    pub fn key(self) -> u64
        ensures { result ≡ time_key self }
    {
        numbers::order::order_key(self.time)
    }

    pub fn is_finite(self) -> bool
        ensures { result ≡ finite_point self }
    {
        self.time.is_finite() & self.value.is_finite() & self.curve.is_finite()
    }

    // +0.0 alone has the pattern 0.
    #[tactic(auto, using(crate::proofs::Floats::pattern_zero))]
    pub fn is_unused(self) -> bool
        ensures { result ≡ is_unused self }
    {
        (std::num::f64_to_bits_with_nan(self.time) == 0)
            & self.sample_position.is_none()
            & (std::num::f32_to_bits_with_nan(self.value) == 0)
            & self.curve.is_linear()
    }

    // The same time and value, nearly.
    #[tactic(auto, using(crate::proofs::FloatLaws::abs_is))]
    pub(crate) fn same(self, other: AutomationPoint) -> bool
        ensures { result ≡ same_point self other }
    {
        ((self.time - other.time).abs() < f64::EPSILON)
            & ((self.value - other.value).abs() < f32::EPSILON)
    }

    // The same curve too.
    #[tactic(auto, using(curve::proofs::Equal::equal_is))]
    pub(crate) fn same_exact(self, other: AutomationPoint) -> bool
        ensures { result ≡ same_point_exact self other }
    {
        self.same(other) & (self.curve == other.curve)
    }

    // 000's PartialEq: the curve aside. No PartialEq here, since it refuses what is not finite; and two, since 000 has both by name.
    pub fn eq(self, other: AutomationPoint) -> Result<bool, Refusal>
        ensures { said result ≡ points_equal same_point self other }
    {
        if self.is_finite() & other.is_finite() {
            Ok(self.same(other))
        } else {
            Err(Refusal::NotFinite)
        }
    }

    pub fn eq_exact(self, other: AutomationPoint) -> Result<bool, Refusal>
        ensures { said result ≡ points_equal same_point_exact self other }
    {
        if self.is_finite() & other.is_finite() {
            Ok(self.same_exact(other))
        } else {
            Err(Refusal::NotFinite)
        }
    }
}
