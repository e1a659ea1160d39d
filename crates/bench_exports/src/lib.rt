// What bench/ measures, as C functions on numbers and slices. Those here pass their arguments on; those of the modules repeat a call on an envelope.
// A tool, on which no caller stands: the latter are proved safe and ending, and state no result.
#![tactic(auto)]

ghost use Rattle.std.specs.Prelude.{◌≡◌, pos, from_bits};
ghost use Rattle.std.specs.Float.{binary32, binary64};
ghost use Rattle.std.specs.Float.Ieee.{of_int, to_unsigned};
ghost use Rattle.numbers.specs.Narrow.{narrow};
ghost use Rattle.numbers.specs.Whole.{round_away};
ghost use Rattle.numbers.specs.Root.{sqrt};
ghost use Rattle.curve.specs.Curve.{interpolated};
ghost use Rattle.curve.specs.declared.CurveType.TheVariants.{Linear, CubicInOut, QuintInOut, Bounce, Back, Logarithmic, Circular, Bezier};

mod bench;
mod made;
mod player;
mod ranges;
mod rehearsal;
mod sheets;
mod tickets;

use curve::CurveType;

// The call alone.
#[unsafe(no_mangle)]
pub extern "C" fn rattle_echo(x: f64) -> f64
    ensures { result ≡ x }
{
    x
}

#[unsafe(no_mangle)]
pub extern "C" fn rattle_narrow(x: f64) -> f32
    ensures { result ≡ narrow x }
{
    numbers::convert::f64_to_f32(x)
}

#[unsafe(no_mangle)]
pub extern "C" fn rattle_u64_to_f32(n: u64) -> f32
    ensures { result ≡ of_int binary32 (pos n) }
{
    numbers::convert::u64_to_f32(n)
}

#[unsafe(no_mangle)]
pub extern "C" fn rattle_f64_to_u64(x: f64) -> u64
    ensures { result ≡ to_unsigned 64 x }
{
    std::num::saturating_f64_to_u64(x)
}

#[unsafe(no_mangle)]
pub extern "C" fn rattle_round(x: f64) -> f64
    ensures { result ≡ round_away binary64 x }
{
    x.round()
}

#[unsafe(no_mangle)]
pub extern "C" fn rattle_roundf(x: f32) -> f32
    ensures { result ≡ round_away binary32 x }
{
    x.round()
}

// The number itself, and of a NaN the one with the bits 7FC00000: a caller in C sees them, and a root that the processor takes may have others.
fn one_nan(x: f32) -> f32
    ensures { result ≡ x }
{
    std::num::f32_from_bits_with_nan(std::num::f32_to_bits_with_nan(x))
}

#[unsafe(no_mangle)]
#[tactic(auto, using(numbers::proofs::StdRoot::std_sqrt))]
pub extern "C" fn rattle_sqrtf(x: f32) -> f32
    ensures { result ≡ sqrt binary32 x }
{
    one_nan(x.sqrt())
}

// The curves, from 0.25 to 0.75.
#[unsafe(no_mangle)]
pub extern "C" fn rattle_linear(t: f32) -> f32
    ensures { result ≡ interpolated Linear (from_bits binary32 0x3E80_0000) (from_bits binary32 0x3F40_0000) t }
{
    let c = CurveType::Linear;
    c.interpolate(0.25, 0.75, t)
}

#[unsafe(no_mangle)]
pub extern "C" fn rattle_cubic_in_out(t: f32) -> f32
    ensures { result ≡ interpolated CubicInOut (from_bits binary32 0x3E80_0000) (from_bits binary32 0x3F40_0000) t }
{
    let c = CurveType::CubicInOut;
    c.interpolate(0.25, 0.75, t)
}

#[unsafe(no_mangle)]
pub extern "C" fn rattle_quint_in_out(t: f32) -> f32
    ensures { result ≡ interpolated QuintInOut (from_bits binary32 0x3E80_0000) (from_bits binary32 0x3F40_0000) t }
{
    let c = CurveType::QuintInOut;
    c.interpolate(0.25, 0.75, t)
}

#[unsafe(no_mangle)]
pub extern "C" fn rattle_bounce(t: f32) -> f32
    ensures { result ≡ interpolated Bounce (from_bits binary32 0x3E80_0000) (from_bits binary32 0x3F40_0000) t }
{
    let c = CurveType::Bounce;
    c.interpolate(0.25, 0.75, t)
}

#[unsafe(no_mangle)]
pub extern "C" fn rattle_back(t: f32) -> f32
    ensures { result ≡ interpolated Back (from_bits binary32 0x3E80_0000) (from_bits binary32 0x3F40_0000) t }
{
    let c = CurveType::Back;
    c.interpolate(0.25, 0.75, t)
}

#[unsafe(no_mangle)]
pub extern "C" fn rattle_logarithmic(t: f32) -> f32
    ensures { result ≡ interpolated Logarithmic (from_bits binary32 0x3E80_0000) (from_bits binary32 0x3F40_0000) t }
{
    let c = CurveType::Logarithmic;
    one_nan(c.interpolate(0.25, 0.75, t))
}

#[unsafe(no_mangle)]
pub extern "C" fn rattle_circular(t: f32) -> f32
    ensures { result ≡ interpolated Circular (from_bits binary32 0x3E80_0000) (from_bits binary32 0x3F40_0000) t }
{
    let c = CurveType::Circular;
    one_nan(c.interpolate(0.25, 0.75, t))
}

#[unsafe(no_mangle)]
pub extern "C" fn rattle_bezier(t: f32) -> f32
    ensures { result ≡ interpolated (Bezier (from_bits binary32 0x3F00_0000) (from_bits binary32 0x3F80_0000)) (from_bits binary32 0x3E80_0000) (from_bits binary32 0x3F40_0000) t }
{
    let c = CurveType::Bezier(0.5, 1.0);
    c.interpolate(0.25, 0.75, t)
}
