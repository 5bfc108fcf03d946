ghost use Rattle.std.specs.Prelude.{◌≡◌, int_lt};
ghost use Rattle.c11_expressions.specs.Arithmetic.{is_same};

/// Two integers of one type.
#[derive(Clone, Copy, Debug, PartialEq, Eq)]
pub(crate) enum Pair {
    Signed(i64, i64),
    Unsigned(u64, u64),
}

impl Pair {
    ghost use Rattle.sc_if.specs.Seen.{first_number, second_number};

    /// Whether the first is less.
    pub(crate) fn is_less(self) -> bool
        ensures { result ≡ int_lt (first_number self) (second_number self) }
    {
        match self {
            Pair::Signed(x, y) => x < y,
            Pair::Unsigned(x, y) => x < y,
        }
    }

    /// Whether the first is greater.
    pub(crate) fn is_greater(self) -> bool
        ensures { result ≡ int_lt (second_number self) (first_number self) }
    {
        match self {
            Pair::Signed(x, y) => y < x,
            Pair::Unsigned(x, y) => y < x,
        }
    }

    /// Whether both are the same number.
    pub(crate) fn is_equal(self) -> bool
        ensures { result ≡ is_same (first_number self) (second_number self) }
    {
        match self {
            Pair::Signed(x, y) => x == y,
            Pair::Unsigned(x, y) => x == y,
        }
    }
}
