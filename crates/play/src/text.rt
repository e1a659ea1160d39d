// The lines that are printed. Each function that puts something returns the place after it.
ghost use Rattle.std.specs.Prelude.{◌+◌, ◌*◌, ◌≤◌, length};
ghost use Rattle.points.specs.Refusal.{number};
ghost use Rattle.fields.specs.Told.{Put};
ghost use Rattle.play.specs.Play.{sample_line, sample_lines, refusal_text};

use fields::write::{fit_bits, fit_decimal, fit_text};
use sheet::SheetRefusal;
use std::num::f32_to_bits_with_nan;

// The names above a refusal, and the line of both numbers.
pub(crate) fn put_refusal(out: &mut [u8], why: SheetRefusal) -> usize
    requires { 35 ≤ length out.old }
    ensures { Put out.old 0 (refusal_text (number why.refusal) why.line) out.new result }
{
    let a = fit_text(out, 0, b"refusal line\n");
    let b = fit_decimal(out, a, why.refusal.number(), b' ');
    fit_decimal(out, b, why.line, b'\n')
}

// A sample's number and its bits. A NaN is printed as the quiet one without a sign.
fn put_line(out: &mut [u8], at: usize, number: u32, x: f32) -> usize
    requires { at + 20 ≤ length out.old }
    ensures { Put out.old at (sample_line number x) out.new result }
{
    let a = fit_decimal(out, at, number, b' ');
    fit_bits(out, a, f32_to_bits_with_nan(x), b'\n')
}

// The lines of samples, numbered from `first` on. A plain `for`: each line starts where the last one ended.
pub(crate) fn put_lines(out: &mut [u8], samples: &[f32], first: u64) -> usize
    requires numbers { first + length samples.now ≤ 4294967295 }
    requires room { 20 * length samples.now ≤ length out.old }
    ensures { Put out.old 0 (sample_lines first samples.now) out.new result }
{
    let mut at = 0;
    for (i, x) in samples.iter().enumerate() {
        at = put_line(out, at, (first + i as u64) as u32, *x);
    }
    at
}
