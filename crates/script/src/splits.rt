ghost use Rattle.std.specs.Prelude.{◌≡◌, true, false, ◌++◌, slice_get, All, IfSome};

/// A text in two, before the first byte that passes a test.
pub(crate) fn split_before<P: Fn(u8) -> bool>(text: &[u8], passes: P) -> (&[u8], &[u8])
    requires { P.IsAlwaysCallable passes }
    ensures whole { text.now ≡ result.0.now ++ result.1.now }
    ensures front { All (λ b. P.post passes b false) result.0.now }
    ensures back { IfSome (slice_get result.1.now 0) (λ b. P.post passes b true) }
{
    let front_len = text.iter().position(|b| passes(*b));
    text.split_at(front_len.unwrap_or(text.len()))
}
