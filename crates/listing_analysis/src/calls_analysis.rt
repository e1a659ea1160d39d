// The calls of the analyses: ranges, the slope, peaks and valleys. `line` is what comes after the name.
use envelope::AutomationEnvelope;
use listing::text::{Line, Outcome, Said};
use listing_envelopes::records::Envelope;
use listing_points::answers::{Answer, Found};
use listing_points::buffers::{ROOM, marked};
use listing_points::lists::{marked_times, says_found};
use points::refusal::Refusal;

// What a range gives: `none`, or `pair` and the lowest and the highest value.
#[derive(Clone, Copy)]
struct Span(Option<(f32, f32)>);

impl Said for Span {
    fn is_said(&self, line: &mut Line<'_>) -> Option<()> {
        let Some(pair) = self.0 else {
            return line.past(b" none");
        };
        line.past(b" pair")?;
        pair.is_said(line)
    }
}

// The call on lists of the lengths that the line has.
fn middles<F: FnOnce(AutomationEnvelope, &mut [f64], &mut [f32]) -> Result<usize, Refusal> + Drop>(
    mut line: Line<'_>,
    find: F,
) -> Option<()>
    requires { F.IsAlwaysCallable find }
{
    let (Envelope(e), times, values) = line.field::<(Envelope, usize, usize)>()?;
    if ROOM < times || ROOM < values {
        return None;
    }
    let (mut all_times, mut all_values) = (marked_times(), marked());
    let (times, values) = (&mut all_times[..times], &mut all_values[..values]);
    let found = find(e, times, values);
    says_found(&mut line, found, times, values)
}

pub fn run(name: &[u8], line: Line<'_>) -> Option<Outcome> {
    Some(match name {
        b"slope_at" => line.holds(|(Envelope(e), time)| Answer(e.get_slope_at(time).map(Found))),
        b"range" => line.holds(|(Envelope(e), from, to)| Answer(e.get_range(from, to).map(Span))),
        b"range_samples" => {
            line.holds(|(Envelope(e), from, to)| Answer(e.get_range_samples(from, to).map(Span)))
        }
        b"peaks" => Outcome::of(middles(line, |e, times, values| e.find_peaks(times, values))),
        b"valleys" => Outcome::of(middles(line, |e, times, values| e.find_valleys(times, values))),
        _ => return None,
    })
}
