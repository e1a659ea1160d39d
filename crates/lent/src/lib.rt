// Merge, with the other points as a lent list.
#![tactic(auto)]

ghost use Rattle.std.specs.Prelude.{◌≡◌};
ghost use Rattle.envelope.specs.Edit.{told_edit};
ghost use Rattle.lent.specs.Merge.{merge_list_of};

use envelope::AutomationEnvelope;
use points::refusal::Refusal;
use points::{AutomationPoint, Points};

// The list as a new envelope's points. It gives 1 where they are too many; where they are not valid the merge does.
#[tactic(auto, using(crate::proofs::Lists::too_many, crate::proofs::Lists::merged_list))]
pub fn merge_points(
    envelope: &AutomationEnvelope,
    others: &[AutomationPoint],
    offset: f64,
) -> Result<AutomationEnvelope, Refusal>
    ensures { told_edit envelope.now result ≡ merge_list_of envelope.now others.now offset }
{
    let Ok(points) = Points::from_slice(others) else {
        return Err(Refusal::NotValid);
    };
    let other = AutomationEnvelope {
        points,
        ..AutomationEnvelope::new(0)
    };
    envelope.merge(&other, offset)
}
