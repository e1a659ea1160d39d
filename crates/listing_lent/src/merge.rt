// The merge over a lent list of points: `merge_points E N POINT*N OFFSET => ok E`.
ghost use Rattle.std.specs.Prelude.{◌≡◌, ◌≤◌, take};
ghost use Rattle.envelope.specs.Edit.{told_edit};
ghost use Rattle.lent.specs.Merge.{merge_list_of};

use envelope::AutomationEnvelope;
use listing::text::{Line, Outcome};
use listing_envelopes::records::Envelope;
use listing_points::answers::Answer;
use listing_points::records::Point;
use points::AutomationPoint;
use points::point::unused;
use points::refusal::Refusal;

// Room for more points than a valid envelope has.
const ROOM: usize = 320;

// The merge with the first n points, lent.
fn merge_first(
    envelope: &AutomationEnvelope,
    list: &[AutomationPoint; ROOM],
    n: usize,
    offset: f64,
) -> Result<AutomationEnvelope, Refusal>
    requires { n ≤ 320 }
    ensures { told_edit envelope.now result ≡ merge_list_of envelope.now (take n list.now) offset }
{
    lent::merge_points(envelope, &list[..n], offset)
}

fn merge(mut line: Line<'_>) -> Option<()> {
    let (Envelope(e), count) = line.field::<(Envelope, usize)>()?;
    if ROOM < count {
        return None;
    }
    let mut list = [unused(); ROOM];
    for place in list.iter_mut().take(count) {
        let Point(p) = line.field()?;
        *place = p;
    }
    let offset = line.field()?;
    line.says(&Answer(merge_first(&e, &list, count, offset).map(Envelope)))
}

// `line` is what comes after the name.
pub fn run(name: &[u8], line: Line<'_>) -> Option<Outcome> {
    Some(match name {
        b"merge_points" => Outcome::of(merge(line)),
        _ => return None,
    })
}
