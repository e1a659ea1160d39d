// Envelopes in a line: `{ TARGET ENABLED MIN MAX STEP HARD N POINT*N }`; `-` is none.
use envelope::AutomationEnvelope;
use listing::text::{Field, Line, Said};
use listing_points::records::{Bounds, List, ListPart};

#[derive(Clone, Copy)]
pub struct Envelope(pub AutomationEnvelope);

impl Field for Envelope {
    fn read(line: &mut Line<'_>) -> Option<Envelope> {
        let EnvelopePart { envelope, is_whole } = line.field()?;
        is_whole.then_some(Envelope(envelope))
    }
}

// As much of an envelope as a line has: the settings, the number of points, and the points before the first that can't be
// read. None where a setting or the number can't be.
#[derive(Clone, Copy)]
pub struct EnvelopePart {
    pub envelope: AutomationEnvelope,
    pub is_whole: bool,
}

impl Field for EnvelopePart {
    fn read(line: &mut Line<'_>) -> Option<EnvelopePart> {
        line.past(b" {")?;
        let (target, enabled) = line.field()?;
        let Bounds(limits) = line.field()?;
        let ListPart { points, is_whole } = line.field()?;
        let envelope = AutomationEnvelope {
            target,
            points,
            enabled,
            hard: limits.hard,
            min_value: limits.min_value,
            max_value: limits.max_value,
            step_size: limits.step_size,
        };
        Some(EnvelopePart {
            envelope,
            is_whole: is_whole && line.past(b" }").is_some(),
        })
    }
}

// The places past the count have to be unused.
impl Said for Envelope {
    fn is_said(&self, line: &mut Line<'_>) -> Option<()> {
        let Envelope(e) = self;
        line.past(b" {")?;
        e.target.is_said(line)?;
        e.enabled.is_said(line)?;
        Bounds(e.limits()).is_said(line)?;
        List(e.points).is_said(line)?;
        line.past(b" }")?;
        e.points.rest_unused().then_some(())
    }
}
