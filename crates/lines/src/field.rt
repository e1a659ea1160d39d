// The fields of a line.
ghost use Rattle.std.specs.Prelude.{◌≡◌, ◌^◌, ◌<◌, ◌≤◌, IfSome};
ghost use Rattle.std.specs.Float.{binary32, binary64};
ghost use Rattle.std.specs.Float.Ieee.{of_bits};
ghost use Rattle.numbers.specs.Bounds.{finite};
ghost use Rattle.points.specs.Refusal.{said, gives};
ghost use Rattle.fields.specs.Form.{ended, read_digits, number_form, optional_form, decimals, target_form};
ghost use Rattle.fields.specs.Told.{told, Below};
ghost use Rattle.lines.specs.Lines.{check};

use points::refusal::Refusal;
use std::num::{f32_from_bits_with_nan, f64_from_bits_with_nan};

// The byte `end`, after a field with this value.
#[tactic(auto, unfolding(fields::specs::Form::next_is))]
fn ended<T: Copy>(value: T, s: &[u8], end: u8) -> Option<(T, &[u8])>
    ensures { told result ≡ ended end value s.now }
{
    match s {
        [b, rest @ ..] if *b == end => Some((value, rest)),
        _ => None,
    }
}

// `width` digits of a base. A plain `for`, since a byte that is no digit ends it at once.
#[tactic(auto, using(fields::proofs::ReadDigits::part_laws))]
fn digits(s: &[u8], base: u64, width: usize) -> Option<(u64, &[u8])>
    requires { base ^ width ≤ 2 ^ 64 }
    ensures value { told result ≡ read_digits base width 0 s.now }
    ensures fits { IfSome result (λ p. p.0 < base ^ width) }
{
    let (front, rest) = s.split_at_checked(width)?;
    let mut v = 0;
    for b in front {
        let d = fields::digits::value(*b);
        if base <= d {
            return None;
        }
        v = v * base + d;
    }
    Some((v, rest))
}

// A number of a fixed width, and the byte `end` after it.
#[tactic(auto, using(fields::proofs::Forms::ended_lt), unfolding(fields::specs::Form::number_form))]
pub(crate) fn number(s: &[u8], base: u64, width: usize, end: u8) -> Option<(u64, &[u8])>
    requires { base ^ width ≤ 2 ^ 64 }
    ensures value { told result ≡ number_form base width end s.now }
    ensures fits { IfSome result (λ p. p.0 < base ^ width) }
{
    let (v, s) = digits(s, base, width)?;
    ended(v, s, end)
}

// A number in hexadecimal, or '-' for none.
#[tactic(auto, unfolding(fields::specs::Form::optional_form, fields::specs::Form::next_is))]
pub(crate) fn optional(s: &[u8], width: usize, end: u8) -> Option<(Option<u64>, &[u8])>
    requires { 16 ^ width ≤ 2 ^ 64 }
    ensures value { told result ≡ optional_form width end s.now }
    ensures fits { IfSome result (λ p. Below (16 ^ width) p.0) }
{
    if let [b'-', rest @ ..] = s {
        return ended(None, rest, end);
    }
    let (v, s) = number(s, 16, width, end)?;
    Some((Some(v), s))
}

// Decimal digits, as far as they go. A `while let`: the bytes after the last digit are given back.
#[tactic(auto, using(fields::proofs::Decimal::next_laws))]
fn decimals(s: &[u8]) -> Option<(u32, &[u8])>
    ensures { told result ≡ decimals 0 s.now }
{
    let mut v: u32 = 0;
    let mut rest = s;
    while let [b, after @ ..] = rest {
        let d = fields::digits::value(*b);
        if 10 <= d {
            break;
        }
        v = v.checked_mul(10)?.checked_add(d as u32)?;
        rest = after;
    }
    Some((v, rest))
}

// The target, and the space after it.
#[tactic(auto, unfolding(fields::specs::Form::target_form, fields::specs::Form::next_digit))]
pub(crate) fn target(s: &[u8]) -> Option<(u32, &[u8])>
    ensures { told result ≡ target_form s.now }
{
    match s {
        [b'0', rest @ ..] => ended(0, rest, b' '),
        [b'1'..=b'9', ..] => {
            let (v, s) = decimals(s)?;
            ended(v, s, b' ')
        }
        _ => None,
    }
}

// The f64 of its bits, if it is finite.
pub(crate) fn finite(bits: u64) -> Result<f64, Refusal>
    ensures { said result ≡ check (finite (of_bits binary64 bits)) 3 (gives (of_bits binary64 bits)) }
{
    let x = f64_from_bits_with_nan(bits);
    if x.is_finite() {
        Ok(x)
    } else {
        Err(Refusal::NotFinite)
    }
}

// The same of an f32. Twice, since a trait over the two widths would be longer than both.
pub(crate) fn finitef(bits: u32) -> Result<f32, Refusal>
    ensures { said result ≡ check (finite (of_bits binary32 bits)) 3 (gives (of_bits binary32 bits)) }
{
    let x = f32_from_bits_with_nan(bits);
    if x.is_finite() {
        Ok(x)
    } else {
        Err(Refusal::NotFinite)
    }
}
