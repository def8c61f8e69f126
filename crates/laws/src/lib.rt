// The leaf functions that the laws of specs/ are about: remainders that are never negative; and the two periods of a board.
#![tactic(auto)]

ghost use Rattle.std.specs.Prelude.{◌≡◌, ◌+◌, ◌<◌, ◌≤◌, ◌%◌, pos, nat_abs, ◌+ℤ◌};
ghost use Rattle.laws.specs.Words.{emod};
ghost use Rattle.laws.specs.Modulus.{modulus_of, ModulusOk};

// The lengths of a board's two pattern tables: how far the horizontal patterns go before they come again, and the vertical ones.
#[derive(Clone, Copy)]
pub struct Periods {
    pub h: usize,
    pub v: usize,
}

// The remainder of x by n that is never negative: -1 by 167 is 166.
fn rem_euclid(x: i32, n: u32) -> u32
    requires { 0 < n }
    ensures { (result ≡ emod x n) × (result < n) }
{
    if x >= 0 {
        (x as u32) % n
    } else {
        n - 1 - ((-1 - x) as u32) % n
    }
}

// The class by n of the coordinate x moved by r, where r is an origin's row or column.
pub fn class_at(x: i32, r: u32, n: u32) -> u32
    requires { (0 < n) × (n + r ≤ 4294967296) }
    ensures { (result ≡ emod (x +ℤ pos r) n) × (result < n) }
{
    (rem_euclid(x, n) + r) % n
}

// A number of at most 500 that can be divided by without a division: with a multiple of it that lifts every coordinate above 0, and with 2^32 over it,
// and one more.
#[derive(Clone, Copy)]
pub struct Modulus {
    pub n: u32,
    pub lift: u32,
    pub factor: u64,
}

// The modulus of n, for many remainders by the same number.
pub fn modulus_of(n: u32) -> Modulus
    requires { (0 < n) × (n ≤ 500) }
    ensures { result ≡ modulus_of n }
{
    let lift = (2000002 / n + 1) * n;
    let factor = 4294967296 / (n as u64) + 1;
    Modulus { n, lift, factor }
}

// A coordinate moved up by a number that makes it positive.
fn lifted(x: i32, by: u32) -> u32
    requires { (nat_abs x ≤ 2000002) × (2000002 ≤ by) × (by ≤ 2000502) }
    ensures { (x +ℤ pos by ≡ pos result) × (result ≤ 4194304) }
{
    (x + by as i32) as u32
}

// The remainder of a number of at most 2^22: its quotient is a product, over 2^32.
fn remainder(u: u32, m: Modulus) -> u32
    requires { ModulusOk m × (u ≤ 4194304) }
    ensures { result ≡ u % m.n }
{
    let q = (u as u64 * m.factor / 4294967296) as u32;
    u - q * m.n
}

// The remainder of a coordinate that is never negative, as `rem_euclid` gives it, without a division.
pub fn residue(x: i32, m: Modulus) -> u32
    requires { ModulusOk m × (nat_abs x ≤ 2000002) }
    ensures { (result ≡ emod x m.n) × (result < m.n) }
{
    remainder(lifted(x, m.lift), m)
}
