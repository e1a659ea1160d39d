// The calls of rendering: `render E RATE FIRST COUNT PLACE LENGTH` and
// `to_buffer E RATE DURATION PLACE LENGTH`, on a lent buffer. `line` is what comes after the name.
use crate::records::Envelope;
use listing::text::{Count, Line, Outcome};
use listing_points::buffers::{marked, says_buffer};

// A run and a whole buffer, here and on a session: their arguments and their calls differ, and what comes after is `says_buffer`.
fn render(mut line: Line<'_>) -> Option<()> {
    let (Envelope(e), rate, (Count(first), Count(count))) = line.field()?;
    let (place, length) = line.field::<(usize, usize)>()?;
    let mut room = marked();
    let buffer = room.get_mut(..length)?;
    let answer = e.render(rate, first, count, buffer, place);
    says_buffer(&mut line, answer, buffer)
}

fn to_buffer(mut line: Line<'_>) -> Option<()> {
    let (Envelope(e), rate, duration) = line.field()?;
    let (place, length) = line.field::<(usize, usize)>()?;
    let mut room = marked();
    let buffer = room.get_mut(..length)?;
    let answer = e.to_buffer(rate, duration, buffer, place);
    says_buffer(&mut line, answer, buffer)
}

pub fn run(name: &[u8], line: Line<'_>) -> Option<Outcome> {
    Some(match name {
        b"render" => Outcome::of(render(line)),
        b"to_buffer" => Outcome::of(to_buffer(line)),
        _ => return None,
    })
}
