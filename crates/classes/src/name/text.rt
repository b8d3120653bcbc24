//! Making and reading names.
ghost use Rattle.std.specs.Prelude.{◌≡◌, true, false, Some, MatchResult, codes};
ghost use Rattle.base.specs.declared.refusal.Refusal.TheVariants.{BadName};
ghost use Rattle.std.specs.Str.{bytes_eq};
ghost use Rattle.classes.specs.Names.{text_of};
ghost use Rattle.classes.specs.Words.{is_name};
ghost use Rattle.std.specs.Cmp.{on_equiv, on_per, partial_equiv_from_equiv};
ghost use Rattle.std.specs.Cmp.Lexicographic.{nat_list_eq_equiv};

use crate::name::{MAX_BYTES, Name};
use arrayvec::ArrayString;
use base::refusal::Refusal;
use base::words::is_word;
use std::{fmt, str};

impl Name {
    /// The name of these bytes, or the refusal of any other number or kind of bytes.
    pub fn new(text: &[u8]) -> Result<Name, Refusal>
        ensures { MatchResult result (λ n. (is_name text.now ≡ true) × (text_of n ≡ text.now)) (λ e. (is_name text.now ≡ false) × (e ≡ BadName)) }
    {
        if !is_word::<MAX_BYTES>(text) {
            return Err(Refusal::BadName);
        }
        let mut name = ArrayString::new();
        name.push_str(str::from_utf8(text).unwrap());
        Ok(Name { text: name })
    }

    /// The name of class 0.
    pub fn root() -> Name
        ensures { text_of result ≡ codes "root" }
    {
        let mut text = ArrayString::new();
        text.push_str("root");
        Name { text }
    }

    pub fn as_bytes(&self) -> &[u8]
        ensures { result.now ≡ text_of self.now }
    {
        self.text.as_bytes()
    }

    pub fn as_str(&self) -> &str
        ensures { result.now ≡ text_of self.now }
    {
        self.text.as_str()
    }

    /// Whether the name is these bytes.
    pub fn is(&self, text: &[u8]) -> bool
        ensures { result ≡ bytes_eq (text_of self.now) text.now }
    {
        self.as_bytes() == text
    }
}

// By hand, so that the text decides by a line of this file, in which a wrong one can be tried.
impl PartialEq for Name {
    ghost eq = { λ a b. bytes_eq (text_of a) (text_of b) };

    ghost laws = { on_per text_of (partial_equiv_from_equiv nat_list_eq_equiv) };

    fn eq(&self, other: &Name) -> bool {
        self.as_bytes() == other.as_bytes()
    }
}

impl Eq for Name {
    ghost laws = { on_equiv text_of nat_list_eq_equiv };
}

impl fmt::Display for Name {
    ghost output = { λ n. Some (text_of n) };

    fn fmt<W: fmt::Write>(&self, f: &mut fmt::Formatter<W>) -> fmt::Result {
        let text = self.as_str();
        write!(f, "{text}")
    }
}
