// The automation envelope: the record and its methods. Source: envelope.rs (000).
#![tactic(auto)]

ghost use Rattle.std.specs.Prelude.{◌≡◌, true, false};
ghost use Rattle.points.specs.Refusal.{said};
ghost use Rattle.envelope.specs.Envelope.{new, limits_of, heard_of, valid_envelope, checked, same_settings, envelopes_equal};

pub mod analyses;
pub mod bench;
pub mod edit;
pub mod player;

use limits::Limits;
use lookup::Heard;
use points::Points;
use points::refusal::Refusal;

#[derive(Clone, Copy)]
pub struct AutomationEnvelope {
    pub target: u32,
    // sorted by time
    pub points: Points,
    pub enabled: bool,
    // 02's F-1: whether the bounds hold after the step
    pub hard: bool,
    pub min_value: Option<f32>,
    pub max_value: Option<f32>,
    pub step_size: Option<f32>,
}

impl AutomationEnvelope {
    #[tactic(auto, unfolding(crate::specs::Envelope::new))]
    pub fn new(target: u32) -> AutomationEnvelope
        ensures { result ≡ new target }
    {
        AutomationEnvelope {
            target,
            points: points::list::none(),
            enabled: true,
            hard: false,
            min_value: None,
            max_value: None,
            step_size: None,
        }
    }

    pub fn limits(&self) -> Limits
        ensures { result ≡ limits_of self.now }
    {
        Limits {
            min_value: self.min_value,
            max_value: self.max_value,
            step_size: self.step_size,
            hard: self.hard,
        }
    }

    // What a lookup takes of it.
    fn heard(&self) -> Heard<'_>
        ensures { result ≡ heard_of self.now }
    {
        Heard {
            points: &self.points,
            enabled: self.enabled,
            limits: self.limits(),
        }
    }

    pub fn is_valid(&self) -> bool
        ensures { result ≡ valid_envelope self.now }
    {
        self.heard().is_valid()
    }

    // 1 where it isn't valid.
    fn check(&self) -> Result<(), Refusal>
        ensures { result ≡ checked self.now }
    {
        if !self.is_valid() {
            return Err(Refusal::NotValid);
        }
        Ok(())
    }

    // No PartialEq: the points are compared by rules of their own.
    fn same_settings(&self, other: &AutomationEnvelope) -> bool
        ensures { result ≡ same_settings self.now other.now }
    {
        (self.target == other.target)
            & (self.enabled == other.enabled)
            & (self.limits() == other.limits())
    }

    // Both equalities of 000; `exact` is a flag as in specs/.
    #[tactic(auto, unfolding(crate::specs::Envelope::envelopes_equal))]
    fn equal(&self, other: &AutomationEnvelope, exact: bool) -> Result<bool, Refusal>
        ensures { said result ≡ envelopes_equal exact self.now other.now }
    {
        self.check()?;
        other.check()?;
        Ok(self.same_settings(other) & self.points.same(&other.points, exact))
    }

    // 000's derived PartialEq: breakpoints by time and value, the curve aside.
    pub fn eq(&self, other: &AutomationEnvelope) -> Result<bool, Refusal>
        ensures { said result ≡ envelopes_equal false self.now other.now }
    {
        self.equal(other, false)
    }

    pub fn eq_exact(&self, other: &AutomationEnvelope) -> Result<bool, Refusal>
        ensures { said result ≡ envelopes_equal true self.now other.now }
    {
        self.equal(other, true)
    }
}
