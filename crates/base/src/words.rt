//! Words: short runs of letters and digits, as names are.
ghost use Rattle.std.specs.Prelude.{◌≡◌};
ghost use Rattle.base.specs.Words.{plain, is_word};

/// Whether a byte is a to z or 0 to 9.
pub fn is_plain(byte: u8) -> bool
    ensures { result ≡ plain byte }
{
    byte.is_ascii_lowercase() || byte.is_ascii_digit()
}

/// Whether the bytes are a word: 1 to `MOST` of them, each a to z or 0 to 9.
pub fn is_word<const MOST: usize>(bytes: &[u8]) -> bool
    ensures { result ≡ is_word MOST bytes.now }
{
    (1..=MOST).contains(&bytes.len()) && bytes.iter().all(|byte| is_plain(*byte))
}
