// Fields written into lent bytes: what fits from the place on is put, else nothing. Each function returns the place after what it put.
// No struct holds the bytes and the place: each of its methods would also have to say that it keeps the bytes that are lent.
ghost use Rattle.std.specs.Prelude.{◌≡◌, ◌<◌, ◌≤◌, length};
ghost use Rattle.fields.specs.Text.{digit_byte, digits_of, number_text, optional_text, places_of, decimal_text};
ghost use Rattle.fields.specs.Told.{Fitted};

// The byte of a digit.
#[tactic(auto, unfolding(crate::specs::Text::digit_byte))]
fn digit_byte(d: u64) -> u8
    requires { d < 16 }
    ensures { result ≡ digit_byte d }
{
    b"0123456789ABCDEF"[d as usize]
}

// How many decimal digits a number has.
#[tactic(auto, using(crate::proofs::Places::places_log, crate::proofs::Places::places_zero))]
pub fn places_of(v: u32) -> usize
    ensures { result ≡ places_of 10 v }
{
    v.checked_ilog10().map_or(1, |n| n as usize + 1)
}

// The digits of a number, in all the places. By index: after a loop over `iter_mut().rev()` a proof knows how many bytes there are, and none of them.
#[tactic(auto, using(crate::proofs::Stores::digits_start, crate::proofs::Stores::digits_more, crate::proofs::Stores::digits_end))]
fn put_digits(out: &mut [u8], v: u64, base: u64)
    requires { (0 < base) × (base ≤ 16) }
    ensures { out.new ≡ digits_of base (length out.old) v }
{
    let mut left = v;
    for k in (0..out.len()).rev() {
        out[k] = digit_byte(left % base);
        left /= base;
    }
}

#[tactic(auto, using(crate::proofs::Stores::not_fits))]
pub fn fit_text(out: &mut [u8], at: usize, w: &[u8]) -> usize
    ensures { Fitted out.old at w.now out.new result }
{
    match at.checked_add(w.len()) {
        Some(end) if end <= out.len() => {
            out[at..end].copy_from_slice(w);
            end
        }
        _ => at,
    }
}

// A number in so many digits, and the byte `end`.
fn fit_number(out: &mut [u8], at: usize, v: u64, base: u64, width: usize, end: u8) -> usize
    requires { (0 < base) × (base ≤ 16) }
    ensures { Fitted out.old at (number_text base width end v) out.new result }
{
    match at.checked_add(width) {
        Some(last) if last < out.len() => {
            put_digits(&mut out[at..last], v, base);
            out[last] = end;
            last + 1
        }
        _ => at,
    }
}

// Five functions that give the base, so that none of them asks anything of a base.

// A number in decimal, and the byte `end`.
pub fn fit_decimal(out: &mut [u8], at: usize, v: u32, end: u8) -> usize
    ensures { Fitted out.old at (decimal_text end v) out.new result }
{
    fit_number(out, at, u64::from(v), 10, places_of(v), end)
}

// The bits of an f32 in hexadecimal, and the byte `end`.
pub fn fit_bits(out: &mut [u8], at: usize, v: u32, end: u8) -> usize
    ensures { Fitted out.old at (number_text 16 8 end v) out.new result }
{
    fit_number(out, at, u64::from(v), 16, 8, end)
}

// A number in so many decimal digits, and the byte `end`.
pub fn fit_digits(out: &mut [u8], at: usize, v: u64, width: usize, end: u8) -> usize
    ensures { Fitted out.old at (number_text 10 width end v) out.new result }
{
    fit_number(out, at, v, 10, width, end)
}

// A number in so many hexadecimal digits, and the byte `end`.
pub fn fit_hex(out: &mut [u8], at: usize, v: u64, width: usize, end: u8) -> usize
    ensures { Fitted out.old at (number_text 16 width end v) out.new result }
{
    fit_number(out, at, v, 16, width, end)
}

// A number in one binary digit, and the byte `end`.
pub fn fit_flag(out: &mut [u8], at: usize, v: u32, end: u8) -> usize
    ensures { Fitted out.old at (number_text 2 1 end v) out.new result }
{
    fit_number(out, at, u64::from(v), 2, 1, end)
}

// A number in hexadecimal, or '-' for none.
#[tactic(auto, unfolding(crate::specs::Text::optional_text))]
pub fn fit_optional(out: &mut [u8], at: usize, p: Option<u64>, width: usize, end: u8) -> usize
    ensures { Fitted out.old at (optional_text width end p) out.new result }
{
    match p {
        Some(v) => fit_hex(out, at, v, width, end),
        None => fit_text(out, at, &[b'-', end]),
    }
}
