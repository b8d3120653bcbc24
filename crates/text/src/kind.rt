//! The kind of a trace.
ghost use Rattle.std.specs.Prelude.{◌≡◌, MatchResult, ◌≢◌};
ghost use Rattle.base.specs.declared.refusal.Refusal.TheVariants.{BadFirstLine};
ghost use Rattle.text.specs.declared.kind.Kind.{Kind as AnyKind};
ghost use Rattle.text.specs.Kinds.{title};

use base::refusal::Refusal;

/// What the items of a trace are.
#[derive(Clone, Copy, PartialEq, Eq, Debug)]
pub enum Kind {
    Quantum,
    Block,
}

/// The kind that a first line names, without its line end.
impl TryFrom<&[u8]> for Kind {
    type Error = Refusal;

    ghost try_from_gives = { λ line r. MatchResult r (λ k. title k ≡ line.now) (λ e. (e ≡ BadFirstLine) × ((k : AnyKind) → title k ≢ line.now)) };

    fn try_from(line: &[u8]) -> Result<Kind, Refusal> {
        match line {
            b"sfq1 quantum" => Ok(Kind::Quantum),
            b"sfq1 block" => Ok(Kind::Block),
            _ => Err(Refusal::BadFirstLine),
        }
    }
}
