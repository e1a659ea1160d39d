// The fields of a line `call => answer`. A field is a space and what stands after it.
ghost use Rattle.std.specs.Prelude.{◌≡◌, ◌≤◌, ◌<◌, ◌^◌, ◌++◌, length, IfSome, MatchOption, IsTrue, ◌↔◌};

use std::num::{
    f32_from_bits_with_nan, f32_to_bits_with_nan, f64_from_bits_with_nan, f64_to_bits_with_nan,
};
use std::str;

// What a call that we have comes to: our answer is the line's, or another. Of a call that we don't have there is none.
#[derive(Debug, PartialEq, Eq, Clone, Copy)]
pub enum Outcome {
    Same,
    Differs,
}

impl Outcome {
    // Where the line was read to its end, our answer was the line's.
    pub fn of(said: Option<()>) -> Outcome {
        match said {
            Some(()) => Outcome::Same,
            None => Outcome::Differs,
        }
    }
}

// A value that stands in a line. Where neither this trait, or `Said`, nor the type is of the crate that reads it, the type
// is in a newtype of that crate: `Curve`, `Point`, `Envelope` and others.
pub trait Field: Sized {
    fn read(line: &mut Line<'_>) -> Option<Self>;
}

// A value that is held against a line: `is_said` goes past what says it, bit for bit but where a zero is marked `~`.
pub trait Said {
    fn is_said(&self, line: &mut Line<'_>) -> Option<()>;
}

// What is left of a line.
#[derive(Clone, Copy)]
pub struct Line<'a> {
    pub rest: &'a [u8],
}

impl<'a> Line<'a> {
    // Goes past the bytes w, where they stand next.
    pub fn past(&mut self, w: &[u8]) -> Option<()>
        ensures { MatchOption result (self.new ≡ self.old) (λ _. self.old.rest.now ≡ w.now ++ self.new.rest.now) }
    {
        self.rest = self.rest.strip_prefix(w)?;
        Some(())
    }

    // The next n bytes.
    fn next_bytes(&mut self, n: usize) -> Option<&'a [u8]>
        ensures { IfSome result (λ bytes. length bytes.now ≡ n) }
    {
        if self.rest.len() < n {
            return None;
        }
        let (bytes, rest) = self.rest.split_at(n);
        self.rest = rest;
        Some(bytes)
    }

    // The bytes before the first b, or all.
    pub fn before(&mut self, b: u8) -> &'a [u8]
        ensures { self.old.rest.now ≡ result.now ++ self.new.rest.now }
    {
        let end = self.rest.iter().position(|x| *x == b);
        let (front, rest) = self.rest.split_at(end.unwrap_or(self.rest.len()));
        self.rest = rest;
        front
    }

    // A text that has no `=`, before the answer: all up to the byte before the first `=`. That byte is not looked at here.
    pub fn text(&mut self) -> Option<&'a [u8]> {
        let end = self.rest.iter().position(|b| *b == b'=')?.checked_sub(1)?;
        let (text, rest) = self.rest.split_at(end);
        self.rest = rest;
        Some(text)
    }

    // A space and n hexadecimal digits.
    fn hexadecimal(&mut self, n: usize) -> Option<u64>
        requires { n ≤ 16 }
        ensures { IfSome result (λ x. x < 16 ^ n) }
    {
        self.past(b" ")?;
        number_of(self.next_bytes(n)?)
    }

    // Decimal digits, as far as they go. A number of 2^64 or more is none.
    pub fn decimal(&mut self) -> Option<u64> {
        let end = self.rest.iter().position(|b| !b.is_ascii_digit());
        let digits = self.next_bytes(end.unwrap_or(self.rest.len()))?;
        str::from_utf8(digits).ok()?.parse().ok()
    }

    pub fn field<T: Field>(&mut self) -> Option<T> {
        T::read(self)
    }

    // Nothing is left.
    pub fn ended(&self) -> Option<()> {
        self.rest.is_empty().then_some(())
    }

    // Our answer, and then the line's end.
    pub fn says<T: Said>(&mut self, answer: &T) -> Option<()> {
        answer.is_said(self)?;
        self.ended()
    }

    // Whether the line's answer is what the call gives of the line's arguments.
    pub fn holds<A: Field, R: Said + Drop, F: FnOnce(A) -> R + Drop>(mut self, call: F) -> Outcome
        requires { F.IsAlwaysCallable call }
    {
        let Some(arguments) = self.field() else {
            return Outcome::Differs;
        };
        Outcome::of(self.says(&call(arguments)))
    }

    // The same of a call that gives a plain value.
    pub fn gives<A: Field, R: Said + Drop, F: FnOnce(A) -> R + Drop>(self, call: F) -> Outcome
        requires { F.IsAlwaysCallable call }
    {
        self.holds(|arguments| Given(call(arguments)))
    }
}

// The answer `ok` and a value.
#[derive(Clone, Copy, Drop)]
pub struct Given<T>(pub T);

impl<T: Said> Said for Given<T> {
    fn is_said(&self, line: &mut Line<'_>) -> Option<()> {
        line.past(b" => ok")?;
        self.0.is_said(line)
    }
}

// A byte's value as a hexadecimal digit in capitals.
pub(crate) fn digit(b: u8) -> Option<u64>
    ensures { IfSome result (λ d. d < 16) }
{
    match b {
        b'0'..=b'9' => Some(u64::from(b - b'0')),
        b'A'..=b'F' => Some(u64::from(b - b'A') + 10),
        _ => None,
    }
}

// The number of these hexadecimal digits.
fn number_of(digits: &[u8]) -> Option<u64>
    requires { length digits.now ≤ 16 }
    ensures { IfSome result (λ n. n < 16 ^ length digits.now) }
{
    let mut n = 0;
    for b in digits {
        n = n * 16 + digit(*b)?;
    }
    Some(n)
}

// Whether two values are the same: a NaN is like any NaN, and 0.0 is not -0.0. Two impls, since the library has the bits of each width by a name of its own.
pub trait Same: Copy {
    fn is_same(self, other: Self) -> bool
        ensures { IsTrue result ↔ (self ≡ other) };
}

impl Same for f64 {
    fn is_same(self, other: f64) -> bool {
        f64_to_bits_with_nan(self) == f64_to_bits_with_nan(other)
    }
}

impl Same for f32 {
    fn is_same(self, other: f32) -> bool {
        f32_to_bits_with_nan(self) == f32_to_bits_with_nan(other)
    }
}

// Goes past a field that is this value.
fn says_field<T: Field + PartialEq + Drop>(line: &mut Line<'_>, value: &T) -> Option<()> {
    (line.field::<T>()? == *value).then_some(())
}

// A word of 16 hexadecimal digits: a list writes the sample numbers of points and of lookups so, and sums.
impl Field for u64 {
    fn read(line: &mut Line<'_>) -> Option<u64> {
        line.hexadecimal(16)
    }
}

impl Said for u64 {
    fn is_said(&self, line: &mut Line<'_>) -> Option<()> {
        says_field(line, self)
    }
}

// A number of that type that a list writes in decimal digits: where a run begins, and how many samples.
#[derive(Clone, Copy, PartialEq)]
pub struct Count(pub u64);

impl Field for Count {
    fn read(line: &mut Line<'_>) -> Option<Count> {
        line.past(b" ")?;
        line.decimal().map(Count)
    }
}

impl Said for Count {
    fn is_said(&self, line: &mut Line<'_>) -> Option<()> {
        says_field(line, self)
    }
}

// Decimal digits too: a count of points or of places, or the number of one.
impl Field for usize {
    fn read(line: &mut Line<'_>) -> Option<usize> {
        let Count(n) = line.field()?;
        Some(n as usize)
    }
}

impl Said for usize {
    fn is_said(&self, line: &mut Line<'_>) -> Option<()> {
        says_field(line, self)
    }
}

impl Field for f64 {
    fn read(line: &mut Line<'_>) -> Option<f64> {
        Some(f64_from_bits_with_nan(line.hexadecimal(16)?))
    }
}

impl Said for f64 {
    fn is_said(&self, line: &mut Line<'_>) -> Option<()> {
        line.field::<f64>()?.is_same(*self).then_some(())
    }
}

impl Field for f32 {
    fn read(line: &mut Line<'_>) -> Option<f32> {
        Some(f32_from_bits_with_nan(line.hexadecimal(8)? as u32))
    }
}

// A zero marked `~` says either zero.
impl Said for f32 {
    fn is_said(&self, line: &mut Line<'_>) -> Option<()> {
        let said: f32 = line.field()?;
        let same = match line.past(b"~") {
            Some(()) => said == 0.0 && *self == 0.0,
            None => said.is_same(*self),
        };
        same.then_some(())
    }
}

impl Field for u32 {
    fn read(line: &mut Line<'_>) -> Option<u32> {
        u32::try_from(line.field::<usize>()?).ok()
    }
}

impl Said for u32 {
    fn is_said(&self, line: &mut Line<'_>) -> Option<()> {
        says_field(line, self)
    }
}

impl Field for bool {
    fn read(line: &mut Line<'_>) -> Option<bool> {
        match line.past(b" 1") {
            Some(()) => Some(true),
            None => line.past(b" 0").map(|()| false),
        }
    }
}

impl Said for bool {
    fn is_said(&self, line: &mut Line<'_>) -> Option<()> {
        says_field(line, self)
    }
}

// `-` is none.
impl<T: Field> Field for Option<T> {
    fn read(line: &mut Line<'_>) -> Option<Option<T>> {
        match line.past(b" -") {
            Some(()) => Some(None),
            None => line.field().map(Some),
        }
    }
}

impl<T: Said> Said for Option<T> {
    fn is_said(&self, line: &mut Line<'_>) -> Option<()> {
        match self {
            Some(x) => x.is_said(line),
            None => line.past(b" -"),
        }
    }
}

impl<A: Field + Drop, B: Field> Field for (A, B) {
    fn read(line: &mut Line<'_>) -> Option<(A, B)> {
        let first = line.field()?;
        Some((first, line.field()?))
    }
}

impl<A: Said, B: Said> Said for (A, B) {
    fn is_said(&self, line: &mut Line<'_>) -> Option<()> {
        self.0.is_said(line)?;
        self.1.is_said(line)
    }
}

impl<A: Field + Drop, B: Field + Drop, C: Field> Field for (A, B, C) {
    fn read(line: &mut Line<'_>) -> Option<(A, B, C)> {
        let (first, second) = line.field()?;
        Some((first, second, line.field()?))
    }
}

// One after the other.
impl<T: Said> Said for &[T] {
    fn is_said(&self, line: &mut Line<'_>) -> Option<()> {
        self.iter().try_for_each(|x| x.is_said(line))
    }
}
