// The Player's calls, each so many times on one envelope.
use crate::made::{limited, made};
use points::refusal::Refusal;

// The value's pattern; 0 for silent and 1 for refused, which no value that is measured has.
pub(crate) fn bits(answer: Result<Option<f32>, Refusal>) -> u64 {
    match answer {
        Ok(None) => 0,
        Ok(Some(v)) => u64::from(std::num::f32_to_bits_with_nan(v)),
        Err(_) => 1,
    }
}

#[unsafe(no_mangle)]
pub extern "C" fn rattle_get_value_at(
    times: &[f64],
    values: &[f32],
    curve: u32,
    at: &[f64],
) -> u64 {
    let e = made(times, values, curve);
    at.iter()
        .fold(0u64, |sum, t| sum.wrapping_add(bits(e.get_value_at(*t))))
}

#[unsafe(no_mangle)]
pub extern "C" fn rattle_get_value_at_sample(
    times: &[f64],
    values: &[f32],
    curve: u32,
    at: &[u64],
) -> u64 {
    let e = made(times, values, curve);
    at.iter().fold(
        0u64,
        |sum, n| sum.wrapping_add(bits(e.get_value_at_sample(*n))),
    )
}

#[unsafe(no_mangle)]
pub extern "C" fn rattle_to_buffer(
    times: &[f64],
    values: &[f32],
    curve: u32,
    rate: f64,
    duration: f64,
    turns: u32,
    out: &mut [f32],
) -> u64 {
    let e = made(times, values, curve);
    let mut good: u64 = 0;
    for _ in 0..turns {
        good = good.wrapping_add(u64::from(e.to_buffer(rate, duration, out, 0).is_ok()));
    }
    good
}

// With both limits and a step.
#[unsafe(no_mangle)]
pub extern "C" fn rattle_to_buffer_limits(
    times: &[f64],
    values: &[f32],
    curve: u32,
    min: f32,
    max: f32,
    step: f32,
    hard: bool,
    rate: f64,
    duration: f64,
    turns: u32,
    out: &mut [f32],
) -> u64 {
    let e = limited(&made(times, values, curve), min, max, step, hard);
    let mut good: u64 = 0;
    for _ in 0..turns {
        good = good.wrapping_add(u64::from(e.to_buffer(rate, duration, out, 0).is_ok()));
    }
    good
}

// As many samples as the buffer has places.
#[unsafe(no_mangle)]
pub extern "C" fn rattle_render(
    times: &[f64],
    values: &[f32],
    curve: u32,
    rate: f64,
    first: u64,
    turns: u32,
    out: &mut [f32],
) -> u64 {
    let e = made(times, values, curve);
    let n = out.len() as u64;
    let mut good: u64 = 0;
    for _ in 0..turns {
        good = good.wrapping_add(u64::from(e.render(rate, first, n, out, 0).is_ok()));
    }
    good
}
