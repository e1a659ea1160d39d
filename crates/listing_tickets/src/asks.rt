// `ask E E OFFSET => ok COUNT`, or `=> refuse N`; in either case the ticket has to hold all three.
// `line` is what comes after the name.
use ask::{Ticket, ask_merge};
use envelope::AutomationEnvelope;
use equal::bit_equal;
use listing::text::{Field, Line, Outcome, Same};
use listing_envelopes::records::EnvelopePart;
use listing_points::answers::Answer;

// A ticket, put together of the three that a line has.
#[derive(Clone, Copy)]
pub struct Three(pub Ticket);

impl Field for Three {
    fn read(line: &mut Line<'_>) -> Option<Three> {
        let TicketPart { ticket, is_whole } = line.field()?;
        is_whole.then_some(Three(ticket))
    }
}

// As much of a ticket as a line has; some in any case. A second envelope that isn't reached is like the first, and an
// offset that can't be read is 0.0.
#[derive(Clone, Copy)]
pub struct TicketPart {
    pub ticket: Ticket,
    pub is_whole: bool,
}

// As much of an envelope as the line has. One of which it has nothing is new.
fn envelope_part(line: &mut Line<'_>) -> EnvelopePart {
    line.field().unwrap_or(EnvelopePart {
        envelope: AutomationEnvelope::new(0),
        is_whole: false,
    })
}

impl Field for TicketPart {
    fn read(line: &mut Line<'_>) -> Option<TicketPart> {
        let first = envelope_part(line);
        let second = if first.is_whole {
            envelope_part(line)
        } else {
            first
        };
        let offset: Option<f64> = if second.is_whole { line.field() } else { None };
        Some(TicketPart {
            ticket: Ticket {
                first: first.envelope,
                second: second.envelope,
                offset: offset.unwrap_or(0.0),
            },
            is_whole: offset.is_some(),
        })
    }
}

// Whether two tickets hold the same three, bit for bit.
fn is_same_ticket(a: &Ticket, b: &Ticket) -> bool {
    bit_equal(&a.first, &b.first) && bit_equal(&a.second, &b.second) && a.offset.is_same(b.offset)
}

fn ask(mut line: Line<'_>) -> Option<()> {
    let Three(given) = line.field()?;
    let asked = ask_merge(&given.first, &given.second, given.offset);
    if !is_same_ticket(&asked.ticket, &given) {
        return None;
    }
    line.says(&Answer(asked.answer))
}

pub fn run(name: &[u8], line: Line<'_>) -> Option<Outcome> {
    Some(match name {
        b"ask" => Outcome::of(ask(line)),
        _ => return None,
    })
}
