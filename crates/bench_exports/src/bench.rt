// The Bench's edits, each so many times on one envelope; bench/ calls from C and names an edit by its number here. The other one of a combination has the same points, later by x.
use crate::made::{curve_of, made, point, shown};

#[unsafe(no_mangle)]
pub extern "C" fn rattle_edit(
    times: &[f64],
    values: &[f32],
    curve: u32,
    which: u32,
    x: f64,
    y: f64,
    turns: u32,
    out_times: &mut [f64],
    out_values: &mut [f32],
) -> u64 {
    let e = made(times, values, curve);
    let c = curve_of(curve);
    let xf = numbers::convert::f64_to_f32(x);
    let yf = numbers::convert::f64_to_f32(y);
    let p = point(x, yf, curve_of(0));
    let limit = Some(xf);
    let other = e.shift_points(x).unwrap_or(e);
    let mut last = Ok(e);
    for _ in 0..turns {
        last = match which {
            0 => e.add_point(p),
            1 => e.remove_point_at(x),
            2 => e.shift_points(x),
            3 => e.scale_time(x),
            4 => e.trim(x, y),
            5 => e.reverse(),
            6 => e.invert_values(xf, yf),
            7 => e.quantize_time(x),
            8 => e.simplify(xf),
            9 => e.normalize(xf, yf),
            10 => e.scale(xf),
            11 => e.offset(xf),
            12 => e.clamp_values(xf, yf),
            13 => e.apply_fade_in(x, c),
            14 => e.apply_fade_out(x, c),
            15 => e.apply_fades(x, y, c),
            16 => e.apply_gate(xf),
            17 => e.apply_compression(xf, yf),
            18 => e.fade_in(x, c),
            19 => e.fade_out(x, c),
            20 => e.pulse(x, y, x, c),
            21 => e.ramp(x, xf, yf, c),
            22 => e.set_enabled(true),
            23 => e.set_min(limit),
            24 => e.set_max(limit),
            25 => e.set_step(limit),
            26 => e.set_hard(true),
            27 => e.merge(&e, x),
            28 => e.blend(&other, yf),
            29 => e.add(&other),
            30 => e.multiply(&other),
            31 => e.min(&other),
            32 => e.max(&other),
            _ => e.subtract(&other),
        };
    }
    match last {
        Ok(made) => shown(&made, out_times, out_values),
        Err(why) => shown(&e, out_times, out_values).wrapping_add(u64::from(why.number())),
    }
}
