//! A law about the definitions: the contract of a function without code.
ghost use Rattle.std.specs.Prelude.{ℕ, List, map};
ghost use Rattle.c11_macros.specs.Call.{call_of};
ghost use Rattle.c11_macros.specs.Hidden.{Hidden};
ghost use Rattle.sc_hoist.specs.Calls.{ClosesAt, closing_at};

/// A call is closed where its arguments end, however many commas part them.
pub fn call_is_closed_where_its_arguments_end<P>()
    ensures { (commas depth : ℕ) (ts : List (Hidden P)) → ClosesAt ts (closing_at depth (map (λ t. t.spelling) ts)) (call_of commas depth ts) }
{}
