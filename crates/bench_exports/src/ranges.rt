// The analyses, each so many times on one envelope.
use crate::made::{counted, made};
use crate::player::bits;
use points::refusal::Refusal;
use std::num::f32_to_bits_with_nan;

// Both patterns in a word; 0 for none and 1 for refused.
fn range_bits(answer: Result<Option<(f32, f32)>, Refusal>) -> u64 {
    match answer {
        Ok(None) => 0,
        Ok(Some((low, high))) => u64::from(f32_to_bits_with_nan(low)) << 32
            | u64::from(f32_to_bits_with_nan(high)),
        Err(_) => 1,
    }
}

#[unsafe(no_mangle)]
pub extern "C" fn rattle_get_range(
    times: &[f64],
    values: &[f32],
    curve: u32,
    start: f64,
    end: f64,
    turns: u32,
) -> u64 {
    let e = made(times, values, curve);
    let mut sum: u64 = 0;
    for i in 0..turns {
        sum = sum.wrapping_add(range_bits(e.get_range(start + f64::from(i), end)));
    }
    sum
}

#[unsafe(no_mangle)]
pub extern "C" fn rattle_get_range_samples(
    times: &[f64],
    values: &[f32],
    curve: u32,
    start: u64,
    end: u64,
    turns: u32,
) -> u64 {
    let e = made(times, values, curve);
    let mut sum: u64 = 0;
    for i in 0..turns {
        let from = start.wrapping_add(u64::from(i));
        sum = sum.wrapping_add(range_bits(e.get_range_samples(from, end)));
    }
    sum
}

#[unsafe(no_mangle)]
pub extern "C" fn rattle_get_slope_at(
    times: &[f64],
    values: &[f32],
    curve: u32,
    at: &[f64],
) -> u64 {
    let e = made(times, values, curve);
    at.iter()
        .fold(0u64, |sum, t| sum.wrapping_add(bits(e.get_slope_at(*t))))
}

#[unsafe(no_mangle)]
pub extern "C" fn rattle_find_peaks(
    times: &[f64],
    values: &[f32],
    curve: u32,
    turns: u32,
    out_times: &mut [f64],
    out_values: &mut [f32],
) -> u64 {
    let e = made(times, values, curve);
    let mut sum: u64 = 0;
    for _ in 0..turns {
        sum = sum.wrapping_add(counted(e.find_peaks(out_times, out_values)));
    }
    sum
}
