//! Words: letters, names and numbers.
ghost use Rattle.std.specs.Prelude.{◌≡◌, ℕ, [], ◌∷◌, ◌++◌, MatchOption, ◌≢◌};
ghost use Rattle.text.specs.Words.{Word, Free, Small, numeral};

use base::words::is_word;

/// What stands before the first such byte, and what after it.
pub fn cut(bytes: &[u8], at: u8) -> Option<(&[u8], &[u8])>
    ensures { MatchOption result (Free at bytes.now) (λ p. Free at p.0.now × (bytes.now ≡ p.0.now ++ at ∷ p.1.now)) }
{
    let i = bytes.iter().position(|byte| *byte == at)?;
    Some((&bytes[..i], &bytes[i + 1..]))
}

/// The word as the one letter that it is.
pub fn letter(word: &[u8]) -> Option<char>
    ensures { MatchOption result ((k : ℕ) → word.now ≢ k ∷ []) (λ k. word.now ≡ k ∷ []) }
{
    match word {
        [byte] => Some(char::from(*byte)),
        _ => None,
    }
}

/// The bytes as a word, if they are one.
pub fn word(bytes: &[u8]) -> Option<&str>
    ensures { MatchOption result (Word bytes.now → ⊥) (λ w. Word w.now × (w.now ≡ bytes.now)) }
{
    // first, since it looks at no more bytes than a word may have
    let word = is_word::<10>(bytes).then_some(bytes)?;
    std::str::from_utf8(word).ok()
}

/// The number that the bytes are the numeral of, if it fits 32 bits.
pub fn number(bytes: &[u8]) -> Option<u32>
    ensures { MatchOption result ((n : ℕ) → Small n → numeral n ≢ bytes.now) (λ n. Small n × (numeral n ≡ bytes.now)) }
{
    let text = std::str::from_utf8(bytes).ok()?;
    let n = text.parse::<u32>().ok()?;
    // `parse` takes a plus and needless zeros; a trace does not.
    if bytes[0] == b'+' {
        return None;
    }
    if bytes[0] == b'0' && bytes.len() > 1 {
        return None;
    }
    Some(n)
}
