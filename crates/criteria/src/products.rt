// Products in whole numbers of 64 bits, each shown to fit.
ghost use Rattle.std.specs.Prelude.{◌≡◌, ◌*◌, ◌^◌, ◌<◌, ◌≤◌, pos, ◌-ℤ◌, ◌*ℤ◌, unsigned_abs};
ghost use Rattle.variables.specs.Sums.{spread};
ghost use Rattle.criteria.specs.Criteria.{above};

use inspection::tallying::Tallying;
use variables::tally::Tally;

// The product of a number of size at most M and one of size at most K.
pub(crate) fn times<const M: u64, const K: u64>(a: i64, b: i64) -> i64
    requires first { unsigned_abs a ≤ M }
    requires second { unsigned_abs b ≤ K }
    requires room { M * K < 2 ^ 63 }
    ensures value { result ≡ a *ℤ b }
    ensures size { unsigned_abs result ≤ M * K }
{
    a * b
}

// A = S - N × L
pub(crate) fn above_limit(limit: i32, t: Tally) -> i64
    requires { unsigned_abs limit ≤ 2000 }
    ensures value { result ≡ above limit t.sums }
    ensures size { unsigned_abs result ≤ 200000 }
{
    let x = t.numbers();
    x.s - times::<50, 2_000>(i64::from(x.n), i64::from(limit))
}

// D = N × Q - S × S
pub(crate) fn spread_of(t: Tally) -> i64
    ensures value { result ≡ spread t.sums }
    ensures size { unsigned_abs result ≤ 10000000000 }
{
    let x = t.numbers();
    times::<50, 200_000_000>(i64::from(x.n), x.q as i64) - times::<100_000, 100_000>(x.s, x.s)
}

// 1,000,000 × (N - 1) × A × A
pub(crate) fn million_squares(t: Tally, a: i64) -> i64
    requires { unsigned_abs a ≤ 200000 }
    ensures { result ≡ pos 1000000 *ℤ (pos t.sums.n -ℤ pos 1) *ℤ a *ℤ a }
{
    let millions = times::<1_000_000, 50>(1_000_000, i64::from(t.count()) - 1);
    let once = times::<50_000_000, 200_000>(millions, a);
    times::<10_000_000_000_000, 200_000>(once, a)
}
