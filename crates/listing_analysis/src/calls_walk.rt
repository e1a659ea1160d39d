// The calls of a walk: `walk E RATE DURATION CALLS => ok walk COUNT VALUE/PLACE ..`, with each call's
// value, `-` for none, and the place it leaves. `line` is what comes after the name.
use envelope::AutomationEnvelope;
use listing::text::{Count, Line, Outcome, Said};
use listing_envelopes::records::Envelope;
use listing_points::answers::Refused;
use render::SampleIterator;

pub fn run(name: &[u8], line: Line<'_>) -> Option<Outcome> {
    Some(match name {
        b"walk" => Outcome::of(walk(line)),
        _ => return None,
    })
}

fn says_step(
    line: &mut Line<'_>,
    envelope: &AutomationEnvelope,
    walk: &mut SampleIterator,
) -> Option<()> {
    envelope.next(walk).ok()?.is_said(line)?;
    line.past(b"/")?;
    (line.decimal()? == walk.current_sample).then_some(())
}

// As many calls as the line has.
fn says_steps(
    line: &mut Line<'_>,
    envelope: &AutomationEnvelope,
    mut walk: SampleIterator,
    calls: usize,
) -> Option<()> {
    line.past(b" => ok walk")?;
    Count(walk.total_samples).is_said(line)?;
    for _ in 0..calls {
        says_step(line, envelope, &mut walk)?;
    }
    line.ended()
}

fn walk(mut line: Line<'_>) -> Option<()> {
    let (Envelope(e), (rate, duration), calls) = line.field()?;
    match e.iter_samples(rate, duration) {
        Ok(walk) => says_steps(&mut line, &e, walk, calls),
        Err(why) => line.says(&Refused(why)),
    }
}
