// The number leaf: finite test, magnitude, and IEEE 754's square root of an f64.
#![tactic(auto)]

ghost use Rattle.std.specs.Prelude.{◌≡◌, true, ◌+◌, ◌*◌, ◌^◌, ◌<◌, ◌≤◌};
ghost use Rattle.std.specs.Float.{binary64};
ghost use Rattle.std.specs.Float.Ieee.{of_bits};
ghost use Rattle.std.specs.Float.Ieee.Scale.{finite};
ghost use Rattle.float.specs.Exact.{abs};
ghost use Rattle.float.specs.Root.{square_root, square_root_bits};
ghost use Rattle.float.specs.Steps.{Split, Rooted, SquareTerm, Clear, pattern_count};

// The bit pattern of 1.0.
const ONE: u64 = 0x3ff0_0000_0000_0000;

// The patterns within 2^26 of it.
const NEAR_ONE_FIRST: u64 = 0x3fef_ffff_fc00_0000;

const NEAR_ONE_LAST: u64 = 0x3ff0_0000_0400_0000;

// The bit pattern of +infinity: those of the finite numbers that are not below zero lie below it.
const INFINITY: u64 = 0x7ff0_0000_0000_0000;

// Whether the pattern b is that of a finite number.
pub fn is_finite_bits(b: u64) -> bool
    ensures { result ≡ finite (of_bits binary64 b) }
{
    b % 0x8000_0000_0000_0000 < INFINITY
}

// Whether x is neither a NaN nor an infinity. Not std's is_finite, which takes x from itself: at an infinity that would set the processor's flag of an invalid
// operation, which a caller in C can see.
pub fn is_finite(x: f64) -> bool
    ensures { result ≡ finite x }
{
    let infinity = 1.0 / 0.0;
    (-infinity < x) & (x < infinity)
}

// x with its sign cleared. Not std's abs, which branches on the sign: timed beside this it takes more than twice as long where the sign can't be
// foretold, as that of a norm's distance from 1.
pub fn magnitude(x: f64) -> f64
    ensures { result ≡ abs x }
{
    if x != x {
        return x;
    }
    f64::from_bits(f64::to_bits(x) % 0x8000_0000_0000_0000)
}

// The square root, correctly rounded. Near 1, where the norms of rotations are, it is small enough for the compiler to put it in its
// caller's place; elsewhere it is a call.
pub fn sqrt(x: f64) -> f64
    ensures { result ≡ square_root x }
{
    if x != x {
        return 0.0 / 0.0; // as compiled 7FF8000000000000, whatever NaN x is
    }
    let b = f64::to_bits(x);
    if b >= NEAR_ONE_FIRST {
        if b <= NEAR_ONE_LAST {
            return f64::from_bits(root_bits_near_one(b));
        }
    }
    general_sqrt(x)
}

// The same, for arguments that are seldom near 1.
pub fn general_sqrt(x: f64) -> f64
    ensures { result ≡ square_root x }
{
    if x > 0.0 {
        if x < 1.0 / 0.0 {
            return f64::from_bits(root_bits(f64::to_bits(x)));
        }
        return x;
    }
    if x == 0.0 {
        return x; // -0 for -0
    }
    0.0 / 0.0
}

// The square root on bit patterns, where the NaN's bits can be promised.
pub fn sqrt_bits(b: u64) -> u64
    ensures { result ≡ square_root_bits b }
{
    if b == 0 {
        return b;
    }
    if b < INFINITY {
        return root_bits(b);
    }
    if b == INFINITY {
        return b;
    }
    if b == 0x8000_0000_0000_0000 {
        return b; // -0 for -0
    }
    0x7ff8_0000_0000_0000
}

// The pattern of the root of the number with the pattern b.
fn root_bits(b: u64) -> u64
    requires b_nonzero { 0 < b }
    requires b_bound { b < 0x7ff0_0000_0000_0000 }
    ensures { Rooted b result }
{
    if b >= NEAR_ONE_FIRST {
        if b <= NEAR_ONE_LAST {
            return root_bits_near_one(b);
        }
    }
    if b >= 0x3fef_ffff_8000_0000 {
        if b <= 0x3ff0_0000_8000_0000 {
            let n = square_term(b);
            if is_clear(n) {
                return root_bits_by_square(b, n);
            }
        }
    }
    let s = split(b);
    let m = s.m;
    let j = s.j;
    let a = m << (j % 2);
    let q = whole_roots::nearest_root(a, guess(a));
    (j / 2 - 26) * 0x10_0000_0000_0000 + q
}

// Within 2^26 patterns of 1.0 the root lies half as far from 1.0, rounded toward below: the square of that distance is too small to show.
fn root_bits_near_one(b: u64) -> u64
    requires le_b { 0x3fef_ffff_fc00_0000 ≤ b }
    requires b_bound { b ≤ 0x3ff0_0000_0400_0000 }
    ensures { Rooted b result }
{
    (b + ONE) / 2
}

// How many patterns b is from 1.0's.
fn distance_from_one(b: u64) -> u64
    ensures { (b ≤ 0x3ff0_0000_0000_0000 → result + b ≡ 0x3ff0_0000_0000_0000) × (0x3ff0_0000_0000_0000 ≤ b → b ≡ result + 0x3ff0_0000_0000_0000) }
{
    if b < ONE { ONE - b } else { b - ONE }
}

// The square of that distance, doubled above 1.0, where a pattern is twice as wide. Two small choices and not two forms, so that they
// compile to no branch: on which side of 1.0 a norm lies can't be foretold.
fn square_term(b: u64) -> u64
    requires le_b { 0x3fef_ffff_8000_0000 ≤ b }
    requires b_bound { b ≤ 0x3ff0_0000_8000_0000 }
    ensures { SquareTerm b result }
{
    let d = distance_from_one(b);
    let n = d * d;
    if b < ONE { n } else { n * 2 }
}

// Whether n is 2^44 or more from the multiples of 2^55.
fn is_clear(n: u64) -> bool
    requires { n ≤ 2 ^ 63 }
    ensures { result ≡ true → Clear n }
{
    (n + 0x1000_0000_0000) % 0x80_0000_0000_0000 >= 0x2000_0000_0000
}

// Within 2^31 patterns of 1.0, twice the root's pattern is below the sum of b and 1.0's by n / 2^55: the term of the distance's square
// in the root's series. The later terms are too small to show where n is clear of a multiple.
fn root_bits_by_square(b: u64, n: u64) -> u64
    requires le_b { 0x3fef_ffff_8000_0000 ≤ b }
    requires b_bound { b ≤ 0x3ff0_0000_8000_0000 }
    requires square_term { SquareTerm b n }
    requires clear { Clear n }
    ensures { Rooted b result }
{
    (b + ONE - (n >> 55)) / 2
}

// A whole number as m * 2^j, m having 53 binary digits.
#[derive(Clone, Copy)]
struct Scaled {
    m: u64,
    j: u64,
}

// The count of 2^-1074 that the pattern b stands for, times 2^1074. A subnormal significand is shifted up by its leading zero bits.
fn split(b: u64) -> Scaled
    requires b_nonzero { 0 < b }
    requires b_bound { b < 0x7ff0_0000_0000_0000 }
    ensures { Split (pattern_count b * 2 ^ 1074) result }
{
    let f = b >> 52;
    let t = b % 0x10_0000_0000_0000;
    if f == 0 {
        let z = u64::leading_zeros(t) - 11;
        Scaled {
            m: t << z,
            j: 1074 - (z as u64),
        }
    } else {
        Scaled {
            m: t + 0x10_0000_0000_0000,
            j: f + 1073,
        }
    }
}

// The bits of a / 2^52. The bounds on a stand in the contracts and not in a type: every line here computes with the bare number.
fn fraction_bits(a: u64) -> u64
    requires bound { 2 ^ 52 ≤ a }
    requires a_bound { a < 2 ^ 54 }
    ensures { result < 0x4010_0000_0000_0000 }
{
    if a < 0x20_0000_0000_0000 {
        a + 0x3fe0_0000_0000_0000
    } else {
        a / 2 + 0x3ff0_0000_0000_0000
    }
}

// A number near the root of a * 2^52, by float arithmetic: Newton's steps toward the reciprocal root, and one toward the root.
// How near it is decides the speed alone, so nothing is promised of it but its range.
fn guess(a: u64) -> u64
    requires bound { 2 ^ 52 ≤ a }
    requires a_bound { a < 2 ^ 54 }
    ensures { (0 < result) × (result < 2 ^ 53) }
{
    let p = fraction_bits(a);
    let v = f64::from_bits(p);
    let mut y = f64::from_bits(0x5fe6_eb50_c7b5_37a9 - p / 2);
    let w = v * 0.5;
    y = y * (1.5 - w * y * y);
    y = y * (1.5 - w * y * y);
    y = y * (1.5 - w * y * y);
    let s = v * y;
    let r = s + y * 0.5 * (v - s * s);
    if r != r {
        return 1;
    }
    f64::to_bits(r) % 0x10_0000_0000_0000 + 0x10_0000_0000_0000
}
