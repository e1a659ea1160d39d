// The lines of a session: `session s CALL => ok kept KEPT ahead AHEAD E`, where a call is
// `open TARGET WORDS`, `edit NAME ARGUMENTS`, `commit E E OFFSET`, `back`, `forward`, `show`, `damage SLOT WORD`,
// or `len WORDS` and one of those, with a step memory of another length. One session is open at a time.
// The calls that alter nothing are in the crate listing_looks.
use listing::text::{Line, Outcome, Said};
use listing_edits::{edit, join};
use listing_envelopes::records::Envelope;
use listing_looks::looks::{STATE_WORDS, look};
use listing_looks::words;
use listing_points::answers::Refused;
use listing_tickets::asks::TicketPart;
use listing_tickets::commits::commit_twice;
use points::refusal::Refusal;
use session::Session;

// The name that stands after a space, up to the next one or the line's end.
fn name<'a>(line: &mut Line<'a>) -> &'a [u8] {
    match line.past(b" ") {
        Some(()) => line.before(b' '),
        None => b"",
    }
}

// ---- answers

// An open session's numbers and envelope.
fn shows(line: &mut Line<'_>, session: &Session) -> Option<()> {
    line.past(b" => ok kept")?;
    session.kept.is_said(line)?;
    line.past(b" ahead")?;
    session.ahead.is_said(line)?;
    line.says(&Envelope(session.envelope))
}

// What a call answered, and the session that it left.
fn answers(line: &mut Line<'_>, session: &Session, answer: Result<(), Refusal>) -> Option<()> {
    match answer {
        Ok(()) => shows(line, session),
        Err(why) => line.says(&Refused(why)),
    }
}

// ---- calls; `memory` is what a call is lent

fn open(mut line: Line<'_>, session: &mut Session, memory: &mut [u64]) -> Option<()> {
    let (target, words) = line.field::<(u32, usize)>()?;
    if memory.len() < words {
        return None;
    }
    words::mark(memory);
    *session = Session::open(target, &memory[..words]);
    shows(&mut line, session)
}

// An edit, or one with a second envelope.
fn edited(mut line: Line<'_>, session: &mut Session, memory: &mut [u64]) -> Option<()> {
    let name = name(&mut line);
    let mut after = line;
    if let Some(edit) = edit(name, &mut after) {
        let answer = session.edit(edit, memory);
        return answers(&mut after, session, answer);
    }
    let Envelope(other) = line.field()?;
    let join = join(name, &mut line)?;
    let answer = session.join(join, &other, memory);
    answers(&mut line, session, answer)
}

// Made twice; both have to answer the line. Of a ticket that can't be read whole as much as can be is committed: the line
// differs and the session stays, but the memory has what the call left in it.
fn commit(mut line: Line<'_>, session: &mut Session, memory: &mut [u64]) -> Option<()> {
    let TicketPart { ticket, is_whole } = line.field()?;
    let (asked, made) = commit_twice(session, &ticket, memory)?;
    if !is_whole {
        return None;
    }
    let mut again = line;
    *session = asked.session;
    answers(&mut line, session, asked.answer)?;
    *session = made.session;
    answers(&mut again, session, made.answer)
}

// Sets all bits of a word of a stored state.
fn damage(mut line: Line<'_>, session: &Session, memory: &mut [u64]) -> Option<()> {
    let (slot, word) = line.field::<(usize, usize)>()?;
    *memory
        .chunks_exact_mut(STATE_WORDS)
        .nth(slot)?
        .get_mut(word)? = u64::MAX;
    shows(&mut line, session)
}

fn call(
    name: &[u8],
    mut line: Line<'_>,
    session: &mut Session,
    memory: &mut [u64],
) -> Option<Outcome> {
    Some(Outcome::of(match name {
        b"back" => {
            let answer = session.back(memory);
            answers(&mut line, session, answer)
        }
        b"forward" => {
            let answer = session.forward(memory);
            answers(&mut line, session, answer)
        }
        b"show" => shows(&mut line, session),
        b"edit" => edited(line, session, memory),
        b"commit" => commit(line, session, memory),
        _ => return None,
    }))
}

// A call with the first `words` words.
fn call_with(
    name: &[u8],
    line: Line<'_>,
    session: &mut Session,
    memory: &mut [u64],
    words: usize,
) -> Option<Outcome> {
    if memory.len() < words {
        return Some(Outcome::Differs);
    }
    call(name, line, session, &mut memory[..words])
}

// A number of words, and a call with so many.
fn call_with_length(
    mut line: Line<'_>,
    session: &mut Session,
    memory: &mut [u64],
) -> Option<Outcome> {
    let Some(words) = line.field() else {
        return Some(Outcome::Differs);
    };
    let name = name(&mut line);
    call_with(name, line, session, memory, words)
}

// A line `session s ..` of the open session; `line` is what comes after `session`.
pub fn run(mut line: Line<'_>, session: &mut Session, memory: &mut [u64]) -> Option<Outcome> {
    line.past(b" s")?;
    let name = name(&mut line);
    match name {
        b"open" => Some(Outcome::of(open(line, session, memory))),
        b"damage" => Some(Outcome::of(damage(line, session, memory))),
        b"len" => call_with_length(line, session, memory),
        // with as many words as at the opening
        _ => look(name, line, session, memory).or_else(|| call_with(
            name,
            line,
            session,
            memory,
            session.length,
        )),
    }
}
