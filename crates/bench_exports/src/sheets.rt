// The sheet, read and written so many times.
use crate::made::shown;

// A refusal's number and 16 times its line; else 16 times the count, and the lists are filled.
#[unsafe(no_mangle)]
pub extern "C" fn rattle_read_sheet(
    text: &[u8],
    turns: u32,
    out_times: &mut [f64],
    out_values: &mut [f32],
) -> u64 {
    let mut last = sheet::read::read_sheet(text);
    for _ in 1..turns {
        last = sheet::read::read_sheet(text);
    }
    match last {
        Ok(envelope) => shown(&envelope, out_times, out_values),
        Err(why) => u64::from(why.line % 1024) * 16 + u64::from(why.refusal.number()),
    }
}

// Writes the envelope of a sheet, or an empty one where it is refused; how many bytes it has.
#[unsafe(no_mangle)]
pub extern "C" fn rattle_write_sheet(text: &[u8], turns: u32, out: &mut [u8]) -> u64 {
    let envelope = sheet::read::read_sheet(text).unwrap_or(envelope::AutomationEnvelope::new(0));
    let mut n: u64 = 0;
    for _ in 0..turns {
        n = sheet::write::write_sheet(&envelope, out).unwrap_or(0) as u64;
    }
    n
}
