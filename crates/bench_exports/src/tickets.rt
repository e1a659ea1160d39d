// A merge that was asked first: the ask, and a session's merge beside the commit of a ticket, each so many times.
use crate::made::{counted, made};
use crate::rehearsal::started;
use ask::{Ticket, ask_merge};
use envelope::edit::Join;
use points::refusal::Refusal;
use session::Session;

// The offset, or its negative in every other turn.
fn turned(offset: f64, i: u32) -> f64 {
    if i % 2 == 0 { offset } else { -offset }
}

// Asks for a merge of the envelope into itself; the sum of the counts, and the last ticket's.
#[unsafe(no_mangle)]
pub extern "C" fn rattle_ask(
    times: &[f64],
    values: &[f32],
    curve: u32,
    offset: f64,
    turns: u32,
) -> u64 {
    let e = made(times, values, curve);
    let mut ticket = Ticket {
        first: e,
        second: e,
        offset,
    };
    let mut sum: u64 = 0;
    for i in 0..turns {
        let asked = ask_merge(&e, &e, turned(offset, i));
        ticket = asked.ticket;
        sum = sum.wrapping_add(counted(asked.answer));
    }
    sum.wrapping_add(ticket.second.points.used() as u64)
}

// The ticket's merge as an edit (0), or the commit of the ticket.
fn merged(which: u32, s: &mut Session, ticket: &Ticket, memory: &mut [u64]) -> Result<(), Refusal> {
    match which {
        0 => s.join(Join::Merge(ticket.offset), &ticket.second, memory),
        _ => commit::commit(s, ticket, memory),
    }
}

// Merges of the envelope into itself, each on the same session; the kept edits and the points of what the last one left.
#[unsafe(no_mangle)]
pub extern "C" fn rattle_session_merge(
    times: &[f64],
    values: &[f32],
    curve: u32,
    which: u32,
    offset: f64,
    turns: u32,
    memory: &mut [u64],
) -> u64 {
    let e = made(times, values, curve);
    let s = started(e, memory);
    let mut ticket = Ticket {
        first: e,
        second: e,
        offset,
    };
    let mut last = s;
    for i in 0..turns {
        ticket.offset = turned(offset, i);
        last = s;
        let _ = merged(which, &mut last, &ticket, memory);
    }
    (last.kept as u64).wrapping_add(last.envelope.points.used() as u64)
}
