// Peaks and valleys on the two lent lists of a line. The answer is `ok list COUNT TIME VALUE ..`; the
// places after the count stay, and all of them where the call is refused.
use crate::answers::Refused;
use crate::buffers::{ROOM, is_unchanged};
use listing::text::{Line, Said};
use points::refusal::Refusal;

// What each place of the times holds before the call.
const BEFORE: f64 = -1.25;

pub fn marked_times() -> [f64; ROOM] {
    [BEFORE; ROOM]
}

// Whether the places from n on, of both lists, hold what they held before.
fn are_unchanged(times: &[f64], values: &[f32], n: usize) -> bool {
    times.iter().skip(n).all(|t| *t == BEFORE) && is_unchanged(values, n)
}

// The answer of the call, and both lists after it.
pub fn says_found(
    line: &mut Line<'_>,
    found: Result<usize, Refusal>,
    times: &[f64],
    values: &[f32],
) -> Option<()> {
    if !are_unchanged(times, values, found.unwrap_or(0)) {
        return None;
    }
    match found {
        Ok(n) => {
            line.past(b" => ok list")?;
            n.is_said(line)?;
            if times.len() < n || values.len() < n {
                return None;
            }
            for middle in times.iter().copied().zip(values.iter().copied()).take(n) {
                middle.is_said(line)?;
            }
            line.ended()
        }
        Err(why) => line.says(&Refused(why)),
    }
}
