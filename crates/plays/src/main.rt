// Plays the inputs of a list: reads lines `input => output` from standard input, plays each input through the functions that the
// program uses, and reports the lines whose output is not ours, as the library `listing_lines` says.
#![tactic(auto)]

ghost use Rattle.std.specs.Prelude.{◌≤◌, length, IfSome};

use listing::bytes::bytes_of;
use listing::text::{Line, Outcome};
use listing_lines::Lines;

mod compare;

// Puts the line's input, which has no `=`, and goes past it; how many bytes it has.
fn input_of(line: &mut Line<'_>, input: &mut [u8]) -> Option<usize>
    ensures { IfSome result (λ n. n ≤ length input.old) }
{
    let text = line.text()?;
    line.past(b" => ")?;
    bytes_of(text, input)
}

// Whether the line's input gives its output; none where the line has no input.
fn played(mut line: Line<'_>, input: &mut [u8], out: &mut [u8; 20480]) -> Option<Outcome> {
    let count = input_of(&mut line, input)?;
    Some(Outcome::of(compare::gives(&input[..count], line, out)))
}

// Runs the lines of the list. A proved loop has to end, and nothing says that a list does: so the lines are counted, up to a number
// that no run uses up.
fn main(rt: HostRuntime) {
    let mut lines = Lines::new(rt.stdin(), rt.stdout());
    let mut input = [0; 16640];
    let mut out = [0; 20480];
    for _ in 0..u64::MAX {
        let Some(rest) = lines.next_line() else {
            break;
        };
        let outcome = played(Line { rest }, &mut input, &mut out);
        lines.counted(outcome);
    }
    lines.print_tally();
}
