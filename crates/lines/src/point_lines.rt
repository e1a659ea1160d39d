// The point lines.
ghost use Rattle.std.specs.Prelude.{◌≡◌, true, cond, ◌||◌, [], ◌∷◌, ◌++◌};
ghost use Rattle.points.specs.Points.{rising};
ghost use Rattle.points.specs.Refusal.{number};
ghost use Rattle.lines.specs.PointLines.{is_empty, points_end, cut_short, point_lines};
ghost use Rattle.lines.specs.Told.{told_lines};

use crate::point::point_line;
use crate::{SheetRefusal, on_line};
use points::refusal::Refusal;
use points::{AutomationPoint, Points};

// Whether the points end here: with the bytes, or in the program at the names of its block. `program` is a flag as in specs/: a closure in its place would ask for contracts of its own.
#[tactic(auto, unfolding(crate::specs::PointLines::points_end, crate::specs::PointLines::is_empty, fields::specs::Form::starts_with))]
fn points_end(s: &[u8], program: bool) -> bool
    ensures { result ≡ points_end program s.now }
{
    if program {
        s.starts_with(b"rate duration\n")
    } else {
        s.is_empty()
    }
}

// Whether the program's input has the names of its block without their last byte, and ends.
#[tactic(auto, unfolding(crate::specs::PointLines::cut_short))]
fn cut_short(s: &[u8], program: bool) -> bool
    ensures { result ≡ cut_short program s.now }
{
    program && s == b"rate duration".as_slice()
}

// What is wrong after 256 points: no line, or the block's cut short; else one more.
#[tactic(auto, unfolding(crate::specs::PointLines::is_empty))]
fn after_last(s: &[u8], program: bool) -> Refusal
    ensures { number result ≡ cond (is_empty s.now || cut_short program s.now) 9 5 }
{
    if s.is_empty() | cut_short(s, program) {
        Refusal::SheetForm
    } else {
        Refusal::TooManyPoints
    }
}

// Whether the times rise with one more point.
#[tactic(auto, using(crate::proofs::Reading::rise_first, crate::proofs::Reading::rise_next))]
fn rise_with(points: &[AutomationPoint], p: AutomationPoint) -> bool
    requires { rising points.now ≡ true }
    ensures { result ≡ rising (points.now ++ (p ∷ [])) }
{
    points.last().is_none_or(|q| q.key() < p.key())
}

// The points of the lines, and the bytes after them. A `while`: each line takes as many bytes as it has. The number of a point's line is 4 more than
// how many points stand before it: the first is on line 4.
#[tactic(auto, using(crate::proofs::Reading::ended, crate::proofs::Reading::refuses, crate::proofs::Reading::falls))]
pub fn point_lines(s: &[u8], program: bool) -> Result<(Points, &[u8]), SheetRefusal>
    ensures { told_lines result ≡ point_lines program 256 [] s.now }
{
    let mut points = points::list::none();
    let mut rest = s;
    while !points_end(rest, program) {
        let line = (points.count + 4) as u32;
        if points.count == 256 {
            let refusal = after_last(rest, program);
            return Err(SheetRefusal { refusal, line });
        }
        let (p, after) = on_line(point_line(rest), line)?;
        if !rise_with(points.as_slice(), p) {
            let refusal = Refusal::TimesDontRise;
            return Err(SheetRefusal { refusal, line });
        }
        points.push(p);
        rest = after;
    }
    Ok((points, rest))
}
