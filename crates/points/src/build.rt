// Points made of a slice.
ghost use Rattle.std.specs.Prelude.{◌≡◌};
ghost use Rattle.points.specs.Fitted.{fitted};

use crate::refusal::Refusal;
use crate::{AutomationPoint, Points};

impl Points {
    // The points of a slice, if there are places for all. Each is taken out and added, which is document 01's form for a lent list of points.
    #[tactic(auto, using(crate::proofs::BuildLaws::from_slice))]
    pub fn from_slice(points: &[AutomationPoint]) -> Result<Points, Refusal>
        ensures { result ≡ fitted points.now }
    {
        if points.len() > 256 {
            return Err(Refusal::TooManyPoints);
        }
        let mut made = crate::list::none();
        for p in points {
            made.push(*p);
        }
        Ok(made)
    }
}
