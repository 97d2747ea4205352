//! The numbers of estimates.

ghost use Rattle.std.specs.Prelude.{◌≡◌, ◌+◌, ◌*◌, ◌^◌, ◌<◌, ◌≤◌};
ghost use Rattle.std.specs.Int.{div_ceil};
ghost use Rattle.costs.specs.Numbers as spec;

/// All, in millionths.
pub const ALL: u64 = 1_000_000;

/// The sum of two costs.
#[tactic(auto, unfolding(crate::specs::Numbers::cut))]
pub fn sum(cost: u64, more: u64) -> u64
    ensures { result ≡ spec.cut (cost + more) }
{
    cost.saturating_add(more)
}

/// A cost, and one for each of so many.
#[tactic(auto, unfolding(crate::specs::Numbers::cut))]
pub fn with_each(cost: u64, count: u64, each: u64) -> u64
    ensures { result ≡ spec.cut (cost + count * each) }
{
    cost.saturating_add(count.saturating_mul(each))
}

/// The product of two numbers of rows.
#[tactic(auto, unfolding(crate::specs::Numbers::cut))]
pub fn product(left: u64, right: u64) -> u64
    ensures { result ≡ spec.cut (left * right) }
{
    left.saturating_mul(right)
}

/// The number as a cost.
#[tactic(auto, unfolding(crate::specs::Numbers::cut))]
pub fn cut(number: u128) -> u64
    ensures { result ≡ spec.cut number }
{
    match u64::try_from(number) {
        Ok(cost) => cost,
        Err(_) => u64::MAX,
    }
}

/// So many millionths of two numbers together, rounded up.
#[tactic(auto, unfolding(crate::specs::Numbers::per_million))]
pub fn per_million_of_both(first: u64, second: u64, share: u64) -> u128
    requires { share ≤ 1000000 }
    ensures share { result ≡ spec.per_million (first + second) share }
    ensures most { result ≤ first + second }
{
    let both = u128::from(first) + u128::from(second);
    (both * u128::from(share)).div_ceil(u128::from(ALL))
}

/// So many millionths of a number, rounded up.
#[tactic(auto, unfolding(crate::specs::Numbers::per_million))]
pub fn per_million(number: u64, share: u64) -> u64
    requires { share ≤ 1000000 }
    ensures share { result ≡ spec.per_million number share }
    ensures most { result ≤ number }
{
    (u128::from(number) * u128::from(share)).div_ceil(u128::from(ALL)) as u64
}

/// How many binary digits the number has.
#[tactic(auto, unfolding(crate::specs::Numbers::binary_digits))]
pub fn binary_digits(number: u64) -> u64
    ensures { result ≡ spec.binary_digits number }
{
    64 - u64::from(number.leading_zeros())
}
