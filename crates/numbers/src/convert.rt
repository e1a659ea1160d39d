// Conversions between floats and integers, total, as Rust's `as` has them.
ghost use Rattle.std.specs.Prelude.{◌≡◌, ◌^◌, ◌<◌, not, T, pos};
ghost use Rattle.std.specs.Float.Ieee as Ieee;
ghost use Rattle.std.specs.Float.{binary32, binary64};
ghost use Rattle.std.specs.Float.Ieee.Nearest.{closest};
ghost use Rattle.numbers.specs.Narrow.{narrow};

// n / 2^k to the nearest whole number, a tie to the even one: to the remainder r come one less than
// half of 2^k and the quotient's last digit, which carries into the quotient q where it moves up.
fn nearest_shr(n: u64, k: u64) -> u64
    requires { (0 < k) × (k < 64) }
    ensures { result ≡ closest n (2 ^ k) }
{
    let h = 1u64 << (k - 1);
    let q = n >> k;
    let r = n % (h * 2);
    q + ((r + (h - 1) + q % 2) >> k)
}

// n rounded to the nearest `f32`, a tie to the even one. Rust's `n as f32`. It stays beside std's `nearest_u64_to_f32`, which
// takes 2.3 times as long below 2^24 and 1.5 times above. Up to 2^24 every n is an
// `f32`; above, its digits are moved to the top of the word, and the first 24 of them are kept.
pub fn u64_to_f32(n: u64) -> f32
    ensures { result ≡ Ieee.of_int binary32 (pos n) }
{
    if n <= 16777216 {
        return n as f32;
    }
    let z = u64::leading_zeros(n) as u64;
    let q = nearest_shr(n << z, 40);
    f32::from_bits(((189 - z) * 8388608 + q) as u32)
}

// The exponent's field of 2^-160: below it a value is far under half of the smallest subnormal.
const FLUSHED_BELOW: u64 = 863;

// The exponent's field of 2^128, from which on there are infinities.
const INFINITE_FROM: u64 = 1151;

// The pattern of the `f32` nearest to the `f64` of the pattern b, by the exponent's field e: zero, a
// subnormal, a normal value, an infinity.
fn narrow_bits(b: u64) -> u64
    requires { T (not (Ieee.is_nan (Ieee.of_bits binary64 b))) }
    ensures { result ≡ Ieee.to_bits binary32 (narrow (Ieee.of_bits binary64 b)) }
{
    // the sign at an `f32`'s place, the exponent's field, and the 52 digits after the leading one
    let sign = (b >> 63) * 0x8000_0000;
    let e = (b >> 52) % 0x800;
    let t = b % 0x10_0000_0000_0000;
    // below 2^-160, where the shift below would pass 63
    if e < FLUSHED_BELOW {
        return sign;
    }
    // below 2^-126, the smallest normal value: so many times 2^-149
    if e < 897 {
        return sign + nearest_shr(0x10_0000_0000_0000 + t, 926 - e);
    }
    // below 2^128: 29 digits go, and a carry out of the others runs into the field
    if e < INFINITE_FROM {
        return sign + ((e - 897) * 0x80_0000 + nearest_shr(0x10_0000_0000_0000 + t, 29));
    }
    // an infinity
    sign + 0x7F80_0000
}

// x rounded to the nearest `f32`, a tie to the even one. Rust's `x as f32`. It stays beside std's `nearest_f64_to_f32_with_nan`,
// which takes 4.2 times as long on fractions, which every sample of a rendering asks for. From the smallest normal
// `f32` to 2^128 the pattern is rounded where it stands: 29 digits go, a carry runs into the
// exponent's field, and the field is 896 less, which is 0x1_C000_0000 in the new place.
pub fn f64_to_f32(x: f64) -> f32
    ensures { result ≡ narrow x }
{
    if x > 1.1754943508222875e-38 {
        if x < 340282366920938463463374607431768211456.0 {
            let b = f64::to_bits(x);
            return f32::from_bits(
                ((b + 0x0FFF_FFFF + (b / 0x2000_0000) % 2) / 0x2000_0000 - 0x1_C000_0000) as u32,
            );
        }
    }
    if x != x {
        return 0.0 / 0.0;
    }
    f32::from_bits(narrow_bits(f64::to_bits(x)) as u32)
}
