// Which module knows which call, in one place: a module gives none for a call that it doesn't
// have.
use crate::calls_edit;
use listing::text::{Line, Outcome};
use listing_analysis::{calls_analysis, calls_walk};
use listing_envelopes::{calls_player, calls_render};
use listing_lent::{merge, sheets};
use listing_numbers::{calls, curves};
use listing_sessions::calls_session;
use listing_tickets::asks;
use session::Session;

// What the module gives that knows the call.
fn outcome(name: &[u8], line: Line<'_>) -> Option<Outcome> {
    calls::run(name, line)
        .or_else(|| curves::run(name, line))
        .or_else(|| calls_player::run(name, line))
        .or_else(|| calls_render::run(name, line))
        .or_else(|| calls_walk::run(name, line))
        .or_else(|| calls_analysis::run(name, line))
        .or_else(|| sheets::run(name, line))
        .or_else(|| merge::run(name, line))
        .or_else(|| calls_edit::run(name, line))
        .or_else(|| asks::run(name, line))
}

// A call of the open session, or any other, which leaves that as it is.
pub(crate) fn played(
    mut line: Line<'_>,
    session: &mut Session,
    memory: &mut [u64],
) -> Option<Outcome> {
    match line.before(b' ') {
        b"session" => calls_session::run(line, session, memory),
        name => outcome(name, line),
    }
}
