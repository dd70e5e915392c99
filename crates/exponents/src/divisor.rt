// The greatest common divisor, by shifts, comparisons and differences. Whoever calls it relies on its contract alone.
ghost use Rattle.std.specs.Prelude.{◌≡◌, ◌<◌, ◌%◌};
ghost use Rattle.rules.specs.Exponents.{gcd};
ghost use Rattle.laws.specs.Twos.{WithoutTwos};

// A number without its factors 2, the digits 0 at its end.
#[tactic(auto, using(crate::proofs::Steps::divisors))]
fn without_twos(n: u64) -> u64
    requires { 0 < n }
    ensures { WithoutTwos n result }
{
    n >> n.trailing_zeros()
}

// Of two odd numbers: the larger less the smaller is even, and its factors 2 don't count.
#[tactic(auto, using(crate::proofs::Steps::divisors))]
fn of_odd(a: u64, b: u64) -> u64
    requires left_odd { a % 2 ≡ 1 }
    requires right_odd { b % 2 ≡ 1 }
    ensures { result ≡ gcd a b }
{
    let mut x = a;
    let mut y = b;
    while x != y {
        let low = x.min(y);
        x = without_twos(x.max(y) - low);
        y = low;
    }
    x
}

#[tactic(auto, using(crate::proofs::Steps::divisors))]
pub fn common_divisor(a: u64, b: u64) -> u64
    ensures { result ≡ gcd a b }
{
    // most powers are whole numbers
    if b == 1 {
        return 1;
    }
    if a == 0 {
        return b;
    }
    if b == 0 {
        return a;
    }
    let i = a.trailing_zeros();
    let j = b.trailing_zeros();
    let g = of_odd(a >> i, b >> j);
    g << i.min(j)
}
