// The limits of an envelope's values: a minimum, a maximum and a step, each a number or none, and whether the bounds hold after the
// step. Source: envelope.rs (000) and 02's F-1.
#![tactic(auto)]

ghost use Rattle.std.specs.Prelude.{◌≡◌};
ghost use Rattle.limits.specs.Limits.{finite_limit, finite_limits, at_least, at_most, bounded, constrained};

#[derive(Clone, Copy, Debug, PartialEq)]
pub struct Limits {
    pub min_value: Option<f32>,
    pub max_value: Option<f32>,
    pub step_size: Option<f32>,
    pub hard: bool,
}

// A limit is a number or none, and a number has to be finite.
pub fn finite_limit(limit: Option<f32>) -> bool
    ensures { result ≡ finite_limit limit }
{
    limit.is_none_or(|x| x.is_finite())
}

// 01 has two rules for the two bounds, by `max` and by `min`.
fn at_least(limit: Option<f32>, v: f32) -> f32
    ensures { result ≡ at_least limit v }
{
    limit.map_or(v, |m| numbers::order::max(v, m))
}

fn at_most(limit: Option<f32>, v: f32) -> f32
    ensures { result ≡ at_most limit v }
{
    limit.map_or(v, |m| numbers::order::min(v, m))
}

impl Limits {
    pub fn is_finite(self) -> bool
        ensures { result ≡ finite_limits self }
    {
        finite_limit(self.min_value) & finite_limit(self.max_value) & finite_limit(self.step_size)
    }

    // The minimum, then the maximum.
    fn bound(self, v: f32) -> f32
        ensures { result ≡ bounded self v }
    {
        at_most(self.max_value, at_least(self.min_value, v))
    }

    // 000's apply_constraints: the bounds, then the step; with hard on, the bounds again, which without a step changes nothing.
    #[tactic(auto, using(crate::proofs::TwiceLaws::hard_bounded), unfolding(crate::specs::Limits::constrained))]
    pub fn apply_constraints(self, v: f32) -> f32
        ensures { result ≡ constrained self v }
    {
        let hard = self.hard;
        let bounded = self.bound(v);
        match self.step_size {
            Some(s) if s > 0.0 => {
                let stepped = (bounded / s).round() * s;
                if hard { self.bound(stepped) } else { stepped }
            }
            _ => bounded,
        }
    }
}
