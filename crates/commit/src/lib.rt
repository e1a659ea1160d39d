// The commit of a merge that was asked first: 02's F-3. The ticket is plain data, and none of it is trusted.
#![tactic(auto)]

ghost use Rattle.std.specs.Prelude.{◌≡◌, false, ◌&&◌};
ghost use Rattle.envelope.specs.Envelope.{valid_envelope};
ghost use Rattle.equal.specs.Equal.{bit_equal};
ghost use Rattle.session.specs.Calls.{Obeys, committed, edit};

use ask::Ticket;
use envelope::edit::Join;
use points::refusal::Refusal;
use session::Session;

// A ticket whose first isn't the session's envelope: 14, behind 1 and what the memory gives.
#[tactic(auto, using(crate::proofs::CommitLaws::commit_one, crate::proofs::CommitLaws::commit_refused, crate::proofs::CommitLaws::commit_other))]
fn refuse(session: &Session, ticket: &Ticket, memory: &[u64]) -> Result<(), Refusal>
    requires { (valid_envelope ticket.now.first && bit_equal session.now.envelope ticket.now.first) ≡ false }
    ensures { Obeys session.now memory.now (edit (committed ticket.now)) result session.now memory.now }
{
    let valid = session.is_valid() & (ticket.first.is_valid() & ticket.second.is_valid());
    if !valid {
        return Err(Refusal::NotValid);
    }
    session.admit(memory)?;
    Err(Refusal::OtherEnvelope)
}

// The ticket's merge, as an edit of the session.
#[tactic(auto, using(crate::proofs::CommitLaws::commit_fits))]
pub fn commit(session: &mut Session, ticket: &Ticket, memory: &mut [u64]) -> Result<(), Refusal>
    ensures { Obeys session.old memory.old (edit (committed ticket.now)) result session.new memory.new }
{
    if ticket.first.is_valid() & equal::bit_equal(&session.envelope, &ticket.first) {
        session.join(Join::Merge(ticket.offset), &ticket.second, memory)
    } else {
        refuse(session, ticket, memory)
    }
}
