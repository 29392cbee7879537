//! Kinds of bytes, and how far bytes of one kind reach.
ghost use Rattle.std.specs.Prelude.{◌≡◌};
ghost use Rattle.text.specs.Bytes.{allowed, blank, solid};
ghost use Rattle.text.specs.Cuts.{Computes, front, behind};

/// Whether a byte may stand in a routine file.
pub fn is_allowed(byte: u8) -> bool
    ensures { result ≡ allowed byte }
{
    !byte.is_ascii_control() || matches!(byte, b'\t' | b'\n' | b'\r')
}

/// Whether a byte stands between tokens: a space, a tab or a carriage return.
pub fn is_blank(byte: u8) -> bool
    ensures { result ≡ blank byte }
{
    matches!(byte, b' ' | b'\t' | b'\r')
}

/// Whether a byte can stand in a token.
pub fn is_solid(byte: u8) -> bool
    ensures { result ≡ solid byte }
{
    !is_blank(byte) && byte != b';' && byte != b'\n'
}

/// The longest front whose bytes all pass a test, and what stands behind it.
pub(crate) fn cut<F: Fn(u8) -> bool>(bytes: &[u8], passes: F) -> (&[u8], &[u8])
    requires { F.IsAlwaysCallable passes }
    ensures front { (test : _) → Computes (F.post passes) test → result.0.now ≡ front test bytes.now }
    ensures behind { (test : _) → Computes (F.post passes) test → result.1.now ≡ behind test bytes.now }
{
    let count = bytes
        .iter()
        .position(|byte| !passes(*byte))
        .unwrap_or(bytes.len());
    bytes.split_at(count)
}
