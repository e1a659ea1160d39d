// IEEE 754's total order of `f64`; max and min.
ghost use Rattle.std.specs.Prelude.{◌≡◌};
ghost use Rattle.numbers.specs.Order.{total_of, order_key};
ghost use Rattle.numbers.specs.Bounds.{max_num, min_num};

use std::cmp::Ordering;

// The number by which totalOrder sorts: x stands before y exactly where its key is smaller.
// A NaN's pattern is not determined, so it gets the key of the positive quiet one.
pub fn order_key(x: f64) -> u64
    ensures { result ≡ order_key x }
{
    let b = std::num::f64_to_bits_with_nan(x);
    if b < 0x8000_0000_0000_0000 {
        b + 0x8000_0000_0000_0000
    } else {
        0xFFFF_FFFF_FFFF_FFFF - b
    }
}

// IEEE 754's totalOrder: by value, -0.0 before 0.0, and a NaN last. std's `x.total_cmp(&y)` asks that neither is a
// NaN; this one asks nothing.
pub fn total_cmp(x: f64, y: f64) -> Ordering
    ensures { result ≡ total_of x y }
{
    order_key(x).cmp(&order_key(y))
}

// The larger of the two: a NaN gives the other, and of two that are equal a is kept. Of 0.0 and -0.0 std's
// `a.max(b)` may give either, and its clauses say no more; here the first is promised.
#[tactic(auto, unfolding(crate::specs::Bounds::max_num))]
pub fn max(a: f32, b: f32) -> f32
    ensures { result ≡ max_num a b }
{
    let second = a.is_nan() | (a < b);
    if second { b } else { a }
}

// The smaller of the two, by the same rules.
#[tactic(auto, unfolding(crate::specs::Bounds::min_num))]
pub fn min(a: f32, b: f32) -> f32
    ensures { result ≡ min_num a b }
{
    if a.is_nan() | (b < a) { b } else { a }
}
