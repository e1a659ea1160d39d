// Replays lists of the Rust's answers: reads lines `call => answer` from standard input, runs each
// call, and reports the lines whose answer is not ours, as the library `listing_lines` says.
#![tactic(auto)]

use listing::text::Line;
use listing_lines::Lines;
use session::Session;

mod calls_edit;
mod dispatch;

// Room for the step memory of a session.
const ROOM: usize = 20480;

// Runs the lines of the list. A proved loop has to end, and nothing says that a list does: so
// the lines are counted, up to a number that no run uses up.
fn main(rt: HostRuntime) {
    let mut lines = Lines::new(rt.stdin(), rt.stdout());
    let mut memory = [0; ROOM];
    let mut session = Session::open(0, &memory);
    for _ in 0..u64::MAX {
        let Some(rest) = lines.next_line() else {
            break;
        };
        let outcome = dispatch::played(Line { rest }, &mut session, &mut memory);
        lines.counted(outcome);
    }
    lines.print_tally();
}
