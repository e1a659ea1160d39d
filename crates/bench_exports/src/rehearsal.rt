// A session's calls, each so many times, over the lent step memory.
use crate::made::made;
use envelope::AutomationEnvelope;
use envelope::edit::{Edit, PointsEdit};
use points::AutomationPoint;
use session::Session;

// A new session, but from that envelope.
pub(crate) fn started(envelope: AutomationEnvelope, memory: &[u64]) -> Session {
    let mut s = Session::open(7, memory);
    s.envelope = envelope;
    s
}

fn shift(x: f64) -> Edit {
    Edit::OfPoints(PointsEdit::ShiftPoints(x))
}

// To and fro.
fn turn(i: u32) -> f64 {
    if i % 2 == 0 { 0.25 } else { -0.25 }
}

// The point at that time, with the one value or the other.
fn put(time: f64, i: u32) -> Edit {
    let value = if i % 2 == 0 { 0.25 } else { 0.5 };
    Edit::OfPoints(PointsEdit::AddPoint(AutomationPoint::new(time, value)))
}

// The edit of a turn: all points move (0), nothing is altered (1), or the point at that time alone gets another value.
fn edit_of(which: u32, time: f64, i: u32) -> Edit {
    match which {
        0 => shift(turn(i)),
        1 => shift(0.0),
        _ => put(time, i),
    }
}

// Edits, one for each turn.
#[unsafe(no_mangle)]
pub extern "C" fn rattle_session_edit(
    times: &[f64],
    values: &[f32],
    curve: u32,
    which: u32,
    time: f64,
    turns: u32,
    memory: &mut [u64],
) -> u64 {
    let mut s = started(made(times, values, curve), memory);
    for i in 0..turns {
        let _ = s.edit(edit_of(which, time, i), memory);
    }
    s.kept as u64
}

// An edit, then a step back and a step forward for each turn.
#[unsafe(no_mangle)]
pub extern "C" fn rattle_session_step(
    times: &[f64],
    values: &[f32],
    curve: u32,
    turns: u32,
    memory: &mut [u64],
) -> u64 {
    let mut s = started(made(times, values, curve), memory);
    let _ = s.edit(shift(0.25), memory);
    for _ in 0..turns {
        let _ = s.back(memory);
        let _ = s.forward(memory);
    }
    s.kept as u64
}
