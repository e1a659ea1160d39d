// Replays a list of calls on a new session, through the session's own functions: what the history theorem says, said of one function.
#![tactic(auto)]

ghost use Rattle.std.specs.Prelude.{◌≡◌, true};
ghost use Rattle.session.specs.Calls.{Obeys};
ghost use Rattle.history.specs.After.{typed_call};
ghost use Rattle.replay.specs.Replay.{other_from, ticket_from, call_from, replayed, AfterReplay};

use ask::Ticket;
use envelope::AutomationEnvelope;
use envelope::edit::{Edit, Join, PointsEdit};
use points::AutomationPoint;
use points::refusal::Refusal;
use session::Session;

// A call of the list, with what an edit of its kind takes.
#[derive(Clone, Copy)]
pub enum Command {
    Back,
    Forward,
    SetEnabled(bool),
    ShiftPoints(f64),
    Scale(f32),
    // the point's time and its value
    AddPoint(f64, f32),
    // the offset, which is also the time of the other envelope's one point, and that point's value
    Merge(f64, f32),
    Commit(f64, f32),
}

// The envelope with one point, which a merge takes.
#[tactic(auto, unfolding(crate::specs::Replay::other_from))]
fn other(x: f64, y: f32) -> AutomationEnvelope
    ensures { result ≡ other_from x y }
{
    let empty = AutomationEnvelope::new(0);
    empty.add_point(AutomationPoint::new(x, y)).unwrap_or(empty)
}

// A ticket whose first is that envelope: it fits a session that has come to be just this.
#[tactic(auto, unfolding(crate::specs::Replay::ticket_from))]
fn ticket(x: f64, y: f32) -> Ticket
    ensures { result ≡ ticket_from x y }
{
    let first = other(x, y);
    Ticket {
        first,
        second: first,
        offset: x,
    }
}

impl Command {
    // The call itself.
    fn call(self, session: &mut Session, memory: &mut [u64]) -> Result<(), Refusal>
        ensures obeys { Obeys session.old memory.old (call_from self) result session.new memory.new }
        ensures typed { typed_call (call_from self) ≡ true }
    {
        match self {
            Command::Back => session.back(memory),
            Command::Forward => session.forward(memory),
            Command::SetEnabled(on) => session.edit(Edit::SetEnabled(on), memory),
            Command::ShiftPoints(offset) => session.edit(
                Edit::OfPoints(PointsEdit::ShiftPoints(offset)),
                memory,
            ),
            Command::Scale(factor) => session.edit(
                Edit::OfPoints(PointsEdit::Scale(factor)),
                memory,
            ),
            Command::AddPoint(x, y) => session.edit(
                Edit::OfPoints(PointsEdit::AddPoint(AutomationPoint::new(x, y))),
                memory,
            ),
            Command::Merge(x, y) => session.join(Join::Merge(x), &other(x, y), memory),
            Command::Commit(x, y) => commit::commit(session, &ticket(x, y), memory),
        }
    }
}

// As many calls as there are places for their answers.
pub fn replay(
    target: u32,
    commands: &[Command],
    answers: &mut [Result<(), Refusal>],
    memory: &mut [u64],
) -> Session
    ensures { AfterReplay target memory.old (replayed commands.now answers.old) answers.old answers.new result memory.new }
{
    let mut session = Session::open(target, memory);
    for (i, command) in commands.iter().take(answers.len()).enumerate() {
        // by place: of what is written through a zip with `iter_mut` a proof knows nothing
        answers[i] = command.call(&mut session, memory);
    }
    session
}
