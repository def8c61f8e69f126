// Log likelihoods as whole numbers, so that sums of them are exact (document 01, "Soft selection"):
// which are taken, each as a whole number of 2^-24, and a sum of such numbers back as an f32.
#![tactic(auto)]

ghost use Rattle.std.specs.Prelude.{◌≡◌, true, ◌<◌, ◌≤◌, ◌^◌, nat_abs};
ghost use Rattle.likelihood.specs.Likelihood.{acceptable, dequantised, Quantised};
ghost use Rattle.likelihood.specs.Steps.{rounded, Magnitude, Pattern};

// The two likelihoods of each edge of a list, a column for each: that the board shows the edge's bit there, and that it does not.
#[derive(Clone, Copy)]
pub struct Likelihoods<'a> {
    pub matches: &'a [f32],
    pub mismatches: &'a [f32],
}

// An f32 with the exponent field e is its 24 digits times 2^(e - 150). Counted in units of 2^-24 that
// is its digits times 2^(e - 126).
const POINT: u32 = 126;

// Whether x may be a likelihood: finite, and from -65,536 to 65,536.
pub fn is_likelihood(x: f32) -> bool
    ensures { result ≡ acceptable x }
{
    -65536.0 <= x && x <= 65536.0
}

// x times 2^24 to the nearest whole number, halves away from zero.
pub fn quantize_ll(x: f32) -> i64
    requires { acceptable x ≡ true }
    ensures { Quantised x result }
{
    let bits: u32 = f32::to_bits(x);
    let size = magnitude((bits >> 23) & 0xff, bits & 0x7f_ffff) as i64;
    if bits >> 31 == 0 { size } else { 0 - size }
}

// sum divided by 2^24 and rounded once to an f32, to the nearest, ties to even.
pub fn dequantize_ll(sum: i64) -> f32
    requires { nat_abs sum ≤ 2 ^ 53 }
    ensures { result ≡ dequantised sum }
{
    if sum == 0 {
        0.0
    } else if sum < 0 {
        f32::from_bits(0x8000_0000 + pattern((0 - sum) as u64))
    } else {
        f32::from_bits(pattern(sum as u64))
    }
}

// The size of a quantised f32, by the fields of its bits. Below field 102 it is less than a half.
fn magnitude(exp: u32, frac: u32) -> u64
    requires { (exp ≤ 143) × (frac < 8388608) }
    ensures { Magnitude exp frac result }
{
    if exp < 102 {
        return 0;
    }
    let digits = 8388608 + (frac as u64);
    if exp < POINT {
        nearest(digits, POINT - exp, true)
    } else {
        digits << (exp - POINT)
    }
}

// The bits, less the sign, of n / 2^24 as an f32: the top set bit tells how many digits are dropped.
// The leading digit adds one to the exponent's field, and so does a carry out of the rounding.
fn pattern(n: u64) -> u32
    requires { (0 < n) × (n ≤ 2 ^ 53) }
    ensures { Pattern n result }
{
    let top = 63 - u64::leading_zeros(n);
    let digits = if top < 24 {
        n << (23 - top)
    } else {
        nearest(n, top - 23, false)
    };
    ((top + POINT - 24) << 23) + (digits as u32)
}

// n / 2^places to the nearest whole number; a half goes up, or to the even one. Half of the divisor is
// added before the places are dropped, one less where a half is to stay at an even number.
fn nearest(n: u64, places: u32, up: bool) -> u64
    requires { (n < 2 ^ 62) × (0 < places) × (places < 62) }
    ensures { result ≡ rounded up n (2 ^ places) }
{
    let half = 1u64 << (places - 1);
    let odd = (n >> places) & 1;
    let added = if up { half } else { half - 1 + odd };
    (n + added) >> places
}
