// The calls of the numbers: each is held against its line's answer. A line is
// `NAME ARGUMENTS => ok ANSWER`; `line` is what comes after the name.
use listing::text::{Line, Outcome, Said};
use numbers::{convert, order};
use std::cmp::Ordering;
use std::num::saturating_f64_to_u64;

// `-1`, `0` or `1`.
#[derive(Clone, Copy)]
struct Order(Ordering);

impl Said for Order {
    fn is_said(&self, line: &mut Line<'_>) -> Option<()> {
        line.past(match self.0 {
            Ordering::Less => b" -1",
            Ordering::Equal => b" 0",
            Ordering::Greater => b" 1",
        })
    }
}

pub fn run(name: &[u8], line: Line<'_>) -> Option<Outcome> {
    Some(match name {
        b"roundf" => line.gives(|x: f32| x.round()),
        b"round" => line.gives(|x: f64| x.round()),
        b"sqrtf" => line.gives(|x: f32| x.sqrt()),
        b"square" => line.gives(|x: f32| x * x),
        b"narrow" => line.gives(convert::f64_to_f32),
        b"u64_to_f32" => line.gives(convert::u64_to_f32),
        b"f64_to_u64" => line.gives(|x| saturating_f64_to_u64(x)),
        b"total_cmp" => line.gives(|(x, y)| Order(order::total_cmp(x, y))),
        b"fmax" => line.gives(|(x, y)| order::max(x, y)),
        b"fmin" => line.gives(|(x, y)| order::min(x, y)),
        _ => return None,
    })
}
