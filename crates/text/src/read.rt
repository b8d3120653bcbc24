//! Reading a line.
ghost use Rattle.std.specs.Prelude.{◌≡◌, ℕ, List, [], ◌∷◌, length, Decides, MatchOption, ◌≢◌};
ghost use Rattle.std.specs.Iterator.{at_most};
ghost use Rattle.text.specs.declared.line.Line.{Line as AnyLine};
ghost use Rattle.text.specs.Words.{Word, Small, numeral};
ghost use Rattle.text.specs.Lines.{Proper, Reads, written};
ghost use Rattle.text.specs.Cursor.{left, splits, Formed};

use crate::line::{Event, Line};
use crate::word::{cut, letter, number, word};
use base::refusal::Refusal;

/// The words of a line that are still to be read.
// Not the library's `split`: the type of its closure would be a parameter of all that reads words.
#[derive(Drop)]
struct Words<'a> {
    rest: Option<&'a [u8]>,
}

impl<'a> Words<'a> {
    fn new(line: &'a [u8]) -> Words<'a>
        ensures { left result ≡ splits line.now }
    {
        Words { rest: Some(line) }
    }

    /// The next word, if it may be a name.
    fn name(&mut self) -> Option<&'a str>
        ensures { MatchOption result ((w : List ℕ) (ws : List (List ℕ)) → Word w → left self.old ≢ w ∷ ws) (λ w. Word w.now × (left self.old ≡ w.now ∷ left self.new)) }
    {
        word(self.next()?)
    }

    /// The next word, as a number.
    fn number(&mut self) -> Option<u32>
        ensures { MatchOption result ((n : ℕ) (ws : List (List ℕ)) → Small n → left self.old ≢ numeral n ∷ ws) (λ n. Small n × (left self.old ≡ numeral n ∷ left self.new)) }
    {
        number(self.next()?)
    }

    /// Whether no word is left. A look at what is left, where `next` would go over it.
    fn is_done(&self) -> bool
        ensures { Decides result (left self.now ≡ []) }
    {
        self.rest.is_none()
    }
}

impl<'a> Iterator for Words<'a> {
    type Item = &'a [u8];

    ghost next_gives = { λ s r t. MatchOption r (left s ≡ []) (λ w. left s ≡ w.now ∷ left t) };

    ghost remaining = { λ s. at_most (length (left s)) };

    fn next(&mut self) -> Option<&'a [u8]> {
        let line = self.rest.take()?;
        match cut(line, b' ') {
            Some((word, rest)) => {
                self.rest = Some(rest);
                Some(word)
            }
            None => Some(line),
        }
    }
}

/// The line that begins with a letter, from the words after it. The letter decides its form, and an event's call.
fn form<'a>(letter: char, words: &mut Words<'a>) -> Option<Line<'a>>
    ensures { Formed letter (left words.old) result (left words.new) }
{
    // a match, and no table of closures: the letter names the form, and each form has its own words
    match letter {
        'c' => Some(Line::Class {
            name: words.name()?,
            parent: words.name()?,
            weight: words.number()?,
        }),
        'l' => Some(Line::Link {
            rate: words.number()?,
        }),
        'o' => Some(Line::Outage {
            offset: words.number()?,
            length: words.number()?,
        }),
        'a' => Some(Line::Event(Event::Submit {
            name: words.name()?,
            cost: words.number()?,
        })),
        'd' => Some(Line::Event(Event::Dispatch)),
        'p' => Some(Line::Event(Event::Pulse)),
        'e' => Some(Line::Event(Event::End)),
        'g' => Some(Line::Event(Event::GiveUp)),
        _ => None,
    }
}

/// The line that the bytes write, if they are of one of the forms.
fn parse(bytes: &[u8]) -> Option<Line<'_>>
    ensures { MatchOption result ((l : AnyLine) → Proper l → written l ≢ bytes.now) (λ l. Proper l × (written l ≡ bytes.now)) }
{
    let mut words = Words::new(bytes);
    let letter = letter(words.next()?)?;
    let line = form(letter, &mut words)?;
    words.is_done().then_some(line)
}

/// The line that the bytes write, without its line end, or the refusal of bytes of another form.
pub fn line(bytes: &[u8]) -> Result<Line<'_>, Refusal>
    ensures { Reads bytes.now result }
{
    parse(bytes).ok_or(Refusal::BadLine)
}
