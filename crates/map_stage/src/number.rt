//! Whole numbers of 64 bits.
ghost use Rattle.std.specs.Prelude.{◌≡◌};
ghost use Rattle.index_tree.specs.Numbers.{difference, negative, product, quotient, remainder, sum};

/// The sum, if it fits.
pub fn sum(m: i64, n: i64) -> Option<i64>
    ensures { result ≡ sum m n }
{
    m.checked_add(n)
}

/// The difference, if it fits.
pub fn difference(m: i64, n: i64) -> Option<i64>
    ensures { result ≡ difference m n }
{
    m.checked_sub(n)
}

/// The product, if it fits.
pub fn product(m: i64, n: i64) -> Option<i64>
    ensures { result ≡ product m n }
{
    m.checked_mul(n)
}

/// The quotient, cut towards zero, if it fits and the divisor is not zero.
pub fn quotient(m: i64, n: i64) -> Option<i64>
    ensures { result ≡ quotient m n }
{
    m.checked_div(n)
}

/// What the division leaves, with the sign of the dividend, if the divisor is not zero.
pub fn remainder(m: i64, n: i64) -> Option<i64>
    ensures { result ≡ remainder m n }
{
    if n == 0 {
        None
    } else {
        Some(m.wrapping_rem(n))
    }
}

/// The negative, if it fits.
pub fn negative(n: i64) -> Option<i64>
    ensures { result ≡ negative n }
{
    n.checked_neg()
}
