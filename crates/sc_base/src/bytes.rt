ghost use Rattle.std.specs.Prelude.{◌≡◌};
ghost use Rattle.sc_model.specs.Bytes.{same_bytes};

/// Whether two texts are the same.
pub fn is_same(a: &[u8], b: &[u8]) -> bool
    ensures { result ≡ same_bytes a.now b.now }
{
    a == b
}
