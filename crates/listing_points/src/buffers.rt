// The lent buffer of a line: before the call its place i holds the number of the pattern
// 4B000000 + i. The answer is `ok buffer LENGTH NUMBER*LENGTH`.
use crate::answers::Refused;
use listing::text::{Line, Said};
use points::refusal::Refusal;
use std::array;
use std::num::f32_from_bits_with_nan;

// The most places that a line's buffer has.
pub const ROOM: usize = 1024;

pub fn marked() -> [f32; ROOM] {
    array::from_fn(|i| f32_from_bits_with_nan(0x4B00_0000 + i as u32))
}

// Whether the places from one on hold what they held before.
pub fn is_unchanged(buffer: &[f32], from: usize) -> bool {
    buffer
        .iter()
        .zip(&marked())
        .skip(from)
        .all(|(after, before)| *after == *before)
}

// The answer of a call that fills a buffer, and the buffer after it. A refused one leaves it.
pub fn says_buffer(line: &mut Line<'_>, answer: Result<(), Refusal>, buffer: &[f32]) -> Option<()> {
    match answer {
        Ok(()) => {
            line.past(b" => ok buffer")?;
            buffer.len().is_said(line)?;
            line.says(&buffer)
        }
        Err(why) if is_unchanged(buffer, 0) => line.says(&Refused(why)),
        Err(_) => None,
    }
}
