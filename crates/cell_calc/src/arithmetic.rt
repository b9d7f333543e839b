ghost use Rattle.std.specs.Prelude.{◌≡◌, ◌≢◌, pos, ◌+ℤ◌, ◌-ℤ◌, ◌*ℤ◌, int_div, int_rem};
ghost use Rattle.std.specs.Ordering.{int_eq};

pub(crate) fn sum(left: i64, right: i64) -> i128
    ensures { result ≡ left +ℤ right }
{
    i128::from(left) + i128::from(right)
}

pub(crate) fn difference(left: i64, right: i64) -> i128
    ensures { result ≡ left -ℤ right }
{
    i128::from(left) - i128::from(right)
}

pub(crate) fn product(left: i64, right: i64) -> i128
    ensures { result ≡ left *ℤ right }
{
    i128::from(left) * i128::from(right)
}

/// The quotient cut towards 0.
pub(crate) fn cut_quotient(left: i64, right: i64) -> i128
    requires { right ≢ pos 0 }
    ensures { result ≡ int_div left right }
{
    i128::from(left) / i128::from(right)
}

/// Whether the quotient is whole.
pub(crate) fn is_exact(left: i64, right: i64) -> bool
    requires { right ≢ pos 0 }
    ensures { result ≡ int_eq (int_rem left right) (pos 0) }
{
    i128::from(left) % i128::from(right) == 0
}
