// The bytes that stand in a line: `|` is 0A, `\` and two digits any byte, another is itself.
ghost use Rattle.std.specs.Prelude.{◌<◌, ◌≤◌, length, IfSome};

use crate::text::digit;

// A byte as a line shows it without `\`. `first_byte` goes the other way.
pub fn shown(b: u8) -> u8 {
    if b == b'\n' { b'|' } else { b }
}

// The byte that the text begins with, and what is left of the text after it.
fn first_byte(text: &[u8]) -> Option<(u8, &[u8])>
    ensures { IfSome result (λ p. length p.1.now < length text.now) }
{
    match text {
        [b'\\', high, low, rest @ ..] => Some(((digit(*high)? * 16 + digit(*low)?) as u8, rest)),
        [b'\\', ..] => None,
        [b'|', rest @ ..] => Some((b'\n', rest)),
        [b, rest @ ..] => Some((*b, rest)),
        [] => None,
    }
}

// Puts the bytes of the text; how many they are. A byte takes one place of the text or three, so that no iterator of std goes over them.
pub fn bytes_of(text: &[u8], out: &mut [u8]) -> Option<usize>
    ensures { IfSome result (λ n. n ≤ length out.old) }
{
    let mut rest = text;
    let mut n = 0;
    while !rest.is_empty() {
        let (b, after) = first_byte(rest)?;
        *out.get_mut(n)? = b;
        n += 1;
        rest = after;
    }
    Some(n)
}
