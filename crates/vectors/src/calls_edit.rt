// The calls of the edits: `NAME E ARGUMENTS => ok E`, and with a second envelope
// `NAME E E ARGUMENTS => ok E`. `line` is what comes after the name.
use envelope::AutomationEnvelope;
use listing::text::{Line, Outcome};
use listing_edits::{edit, join};
use listing_envelopes::records::Envelope;
use listing_points::answers::Answer;

// What an edit of the envelope comes to; none where the line has no arguments of an edit of that name.
fn edited(name: &[u8], e: &AutomationEnvelope, mut line: Line<'_>) -> Option<Outcome> {
    let edit = edit(name, &mut line)?;
    Some(Outcome::of(line.says(&Answer(e.edit(edit).map(Envelope)))))
}

// The same of one with a second envelope.
fn joined(name: &[u8], e: &AutomationEnvelope, mut line: Line<'_>) -> Option<Outcome> {
    let Envelope(other) = line.field()?;
    let join = join(name, &mut line)?;
    Some(Outcome::of(line.says(&Answer(e.join(join, &other).map(Envelope)))))
}

pub(crate) fn run(name: &[u8], mut line: Line<'_>) -> Option<Outcome> {
    let Envelope(e) = line.field()?;
    edited(name, &e, line).or_else(|| joined(name, &e, line))
}
