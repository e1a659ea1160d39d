// The lines of a session's calls that alter nothing: lookups and runs, which have the answers of the
// calls on its envelope, and those that look at the whole step memory, `memory => ok SUM`,
// `words FROM COUNT => ok SUM` and `slot K => ok E`. `line` is what comes after the name.
use crate::words;
use listing::text::{Count, Given, Line, Outcome};
use listing_envelopes::records::Envelope;
use listing_points::answers::{Answer, Found};
use listing_points::buffers::{marked, says_buffer};
use session::Session;
pub use state::STATE_WORDS;
use state::read::read_state;

fn render(mut line: Line<'_>, session: &Session) -> Option<()> {
    let (rate, Count(first), Count(count)) = line.field()?;
    let (place, length) = line.field::<(usize, usize)>()?;
    let mut room = marked();
    let buffer = room.get_mut(..length)?;
    let answer = session.render(rate, first, count, buffer, place);
    says_buffer(&mut line, answer, buffer)
}

fn to_buffer(mut line: Line<'_>, session: &Session) -> Option<()> {
    let (rate, duration) = line.field()?;
    let (place, length) = line.field::<(usize, usize)>()?;
    let mut room = marked();
    let buffer = room.get_mut(..length)?;
    let answer = session.to_buffer(rate, duration, buffer, place);
    says_buffer(&mut line, answer, buffer)
}

// The sum of a part of the words.
fn part(mut line: Line<'_>, memory: &[u64]) -> Option<()> {
    let (from, count) = line.field::<(usize, usize)>()?;
    let part = memory.get(from..from.checked_add(count)?)?;
    line.says(&Given(words::sum(part)))
}

// The stored state of a slot. Words that are none, or not in the memory, differ from any answer.
fn slot(mut line: Line<'_>, memory: &[u64]) -> Option<()> {
    let slot = line.field()?;
    let stored = read_state(memory.chunks_exact(STATE_WORDS).nth(slot)?).ok()?;
    line.says(&Given(Envelope(stored)))
}

pub fn look(name: &[u8], mut line: Line<'_>, session: &Session, memory: &[u64]) -> Option<Outcome> {
    Some(match name {
        b"value_at" => line.holds(|time| Answer(session.get_value_at(time).map(Found))),
        b"value_at_sample" => {
            line.holds(|sample| Answer(session.get_value_at_sample(sample).map(Found)))
        }
        b"render" => Outcome::of(render(line, session)),
        b"to_buffer" => Outcome::of(to_buffer(line, session)),
        b"memory" => Outcome::of(line.says(&Given(words::sum(memory)))),
        b"words" => Outcome::of(part(line, memory)),
        b"slot" => Outcome::of(slot(line, memory)),
        _ => return None,
    })
}
