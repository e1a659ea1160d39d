// The calls of the Player: lookups, validity and the equalities. `line` is what comes after the name.
use crate::records::Envelope;
use listing::text::{Line, Outcome};
use listing_points::answers::{Answer, Found};
use listing_points::records::Point;

pub fn run(name: &[u8], line: Line<'_>) -> Option<Outcome> {
    Some(match name {
        b"value_at" => line.holds(|(Envelope(e), time)| Answer(e.get_value_at(time).map(Found))),
        b"value_at_sample" => {
            line.holds(|(Envelope(e), sample)| Answer(e.get_value_at_sample(sample).map(Found)))
        }
        b"valid" => line.gives(|Envelope(e)| e.is_valid()),
        b"eq" => line.holds(|(Envelope(a), Envelope(b))| Answer(a.eq(&b))),
        b"eq_exact" => line.holds(|(Envelope(a), Envelope(b))| Answer(a.eq_exact(&b))),
        b"point_eq" => line.holds(|(Point(p), Point(q))| Answer(p.eq(q))),
        b"point_eq_exact" => line.holds(|(Point(p), Point(q))| Answer(p.eq_exact(q))),
        _ => return None,
    })
}
