// A session's `commit E E OFFSET`. It is made twice: with the ticket of an ask, on a copy of the memory, and
// with one put together by hand, on the memory itself.
use ask::{Ticket, ask_merge};
use points::refusal::Refusal;
use session::Session;

// Room for a copy of the step memory.
const ROOM: usize = 20480;

// What a commit answered, and the session that it left.
#[derive(Clone, Copy)]
pub struct Committed {
    pub answer: Result<(), Refusal>,
    pub session: Session,
}

fn commit_with(session: &Session, ticket: &Ticket, memory: &mut [u64]) -> Committed {
    let mut session = *session;
    let answer = commit::commit(&mut session, ticket, memory);
    Committed { answer, session }
}

// First with the ticket of the ask. `memory` is what the call is lent. None where the memories that the commits
// left differ, as those of more words than there is room for do: the copy is shorter.
pub fn commit_twice(
    session: &Session,
    ticket: &Ticket,
    memory: &mut [u64],
) -> Option<(Committed, Committed)> {
    let mut room = [0; ROOM];
    let length = memory.len().min(ROOM);
    let copy = &mut room[..length];
    copy.copy_from_slice(&memory[..length]);
    let ask = ask_merge(&ticket.first, &ticket.second, ticket.offset);
    let asked = commit_with(session, &ask.ticket, copy);
    let made = commit_with(session, ticket, memory);
    (&*copy == &*memory).then_some((asked, made))
}
