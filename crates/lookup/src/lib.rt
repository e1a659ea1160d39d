// Lookup by time and by sample, over what is heard of an envelope: its points, its switch and its limits. Source: envelope.rs (000).
#![tactic(auto)]

ghost use Rattle.std.specs.Prelude.{◌≡◌, true, cond, Ok, Err};
ghost use Rattle.points.specs.Points.{list_of};
ghost use Rattle.points.specs.declared.refusal.Refusal.TheVariants.{NotValid};
ghost use Rattle.lookup.specs.Valid.{valid};

use limits::Limits;
use points::refusal::Refusal;
use points::{AutomationPoint, Points};
use std::marker::Model;

pub mod axis;
pub mod place;
pub mod sample;
pub mod time;

// What a lookup takes of an envelope.
#[derive(Drop)]
pub struct Heard<'a> {
    pub points: &'a Points,
    pub enabled: bool,
    pub limits: Limits,
}

impl<'a> Model for Heard<'a> {
    ghost use Rattle.lookup.specs.Heard.{Heard};

    ghost Value = { Heard };

    ghost view = { λ h. record { points = h.points.now; enabled = h.enabled; limits = h.limits } };
}

// What is heard of a valid envelope: `Heard::valid` makes it.
#[derive(Drop)]
pub struct Valid<'a> {
    pub heard: &'a Heard<'a>,
}

impl<'a> Model for Valid<'a> {
    ghost use Rattle.std.specs.Prelude.{◌≡◌, true};
    ghost use Rattle.lookup.specs.Heard.{Heard};
    ghost use Rattle.lookup.specs.Valid.{valid};

    ghost Value = { Heard };

    ghost view = { λ v. v.heard.now };

    ghost invariant = { λ v. valid v.heard.now.points v.heard.now.limits ≡ true };
}

// What is heard of an envelope that can be looked up by sample: its keys rise, if it is enabled. `Valid::keyed` makes it; that it is valid too is no part of the invariant.
#[derive(Drop)]
pub struct Keyed<'a> {
    pub heard: &'a Heard<'a>,
}

impl<'a> Model for Keyed<'a> {
    ghost use Rattle.std.specs.Prelude.{◌≡◌, true};
    ghost use Rattle.lookup.specs.Heard.{Heard};
    ghost use Rattle.lookup.specs.Lookup.{keys_rise};

    ghost Value = { Heard };

    ghost view = { λ k. k.heard.now };

    ghost invariant = { λ k. keys_rise k.heard.now.points k.heard.now.enabled ≡ true };
}

impl Heard<'_> {
    pub fn points(&self) -> &[AutomationPoint]
        ensures { result.now ≡ list_of self.now.points }
    {
        self.points.as_slice()
    }

    pub fn is_valid(&self) -> bool
        ensures { result ≡ valid self.now.points self.now.limits }
    {
        self.limits.is_finite() & self.points.is_valid()
    }

    pub fn valid(&self) -> Result<Valid<'_>, Refusal>
        ensures { result ≡ cond (valid self.now.points self.now.limits) (Ok self.now) (Err NotValid) }
    {
        if !self.is_valid() {
            return Err(Refusal::NotValid);
        }
        Ok(Valid { heard: self })
    }
}

impl Valid<'_> {
    // Its points, which are valid.
    pub fn points(&self) -> &[AutomationPoint]
        ensures value { result.now ≡ list_of self.now.points }
        ensures valid { valid self.now.points self.now.limits ≡ true }
    {
        self.heard.points()
    }
}
