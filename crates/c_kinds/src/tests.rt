// Comparisons.
ghost use Rattle.std.specs.Prelude.{◌≡◌};
ghost use Rattle.c_kinds.specs.Numbers as spec;

/// 1 for what is so, and 0 for what isn't, of kind `int` (C11 6.5.8p6, 6.5.9p3).
pub fn truth(is_so: bool) -> i128
    ensures { result ≡ spec.truth is_so }
{
    i128::from(is_so)
}

/// `first < second` (C11 6.5.8p6).
pub fn less(first: i128, second: i128) -> i128
    ensures { result ≡ spec.less first second }
{
    truth(first < second)
}

/// `first <= second` (C11 6.5.8p6).
pub fn at_most(first: i128, second: i128) -> i128
    ensures { result ≡ spec.at_most first second }
{
    truth(first <= second)
}

/// `first == second` (C11 6.5.9p3).
pub fn equal(first: i128, second: i128) -> i128
    ensures { result ≡ spec.equal first second }
{
    truth(first == second)
}

/// `first != second` (C11 6.5.9p3).
pub fn not_equal(first: i128, second: i128) -> i128
    ensures { result ≡ spec.not_equal first second }
{
    truth(first != second)
}
