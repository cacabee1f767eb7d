// What a kind uses, and the refusals 3 to 5, which a term's own numbers decide.
// docs/READING.md: "Term tables", "Refusal numbers".
#![tactic(auto)]

ghost use Rattle.std.specs.Prelude.{◌≡◌, leb, Err};
ghost use Rattle.meaning.specs.Choices.{pick, and};
ghost use Rattle.meaning.specs.Refusals.{passed};
ghost use Rattle.meaning.specs.Checks.{known_kind, operands_of};
ghost use Rattle.kinds.specs.Early.{early_of};

use meaning::{Cause, Kind};
use words::Width;

// 3: the kind is one of the table's.
fn known(kind: u32) -> bool
    ensures { result ≡ known_kind kind }
{
    matches!(kind, 1..=4 | 9 | 12..=22)
}

// 13 to 22: the kind is an operation on words, which one compare tells before the match on kinds.
fn operates(kind: u32) -> bool
    ensures { result ≡ and (leb 13 kind) (leb kind 22) }
{
    (13..=22).contains(&kind)
}

// How many of a, b, c name terms.
#[tactic(auto, unfolding(meaning::specs::Checks::operands_of))]
pub fn operands(kind: u32) -> usize
    ensures { result ≡ operands_of kind }
{
    match Kind::from(kind) {
        Kind::Seq | Kind::Par => 2,
        Kind::Ite | Kind::Rec => 3,
        _ => 0,
    }
}

// A check passes where its condition holds, and is refused for its cause where not.
fn require(condition: bool, cause: Cause) -> Result<(), Cause>
    ensures { result ≡ pick condition passed (Err cause) }
{
    if condition { Ok(()) } else { Err(cause) }
}

// The first refusal of 3 to 5 that a term of these numbers gives, if one does.
// 4: the unused numbers of a term are 0.
// 5: m is 1 to 16; a Const's v is a word, a Field's k is below m.
#[tactic(auto, unfolding(meaning::specs::Checks::used_of, meaning::specs::Checks::operands_of))]
pub fn early(width: Width, kind: u32, a: u32, b: u32, c: u32) -> Result<(), Cause>
    ensures { result ≡ early_of width.bits kind a b c }
{
    if operates(kind) {
        return require(a == 0 && b == 0 && c == 0, Cause::UnusedNumber);
    }
    match Kind::from(kind) {
        Kind::Seq | Kind::Par => require(c == 0, Cause::UnusedNumber),
        Kind::Ite | Kind::Rec => Ok(()),
        Kind::Const => {
            require(c == 0, Cause::UnusedNumber)?;
            require(words::few_words(a) && width.fits(b), Cause::TermValue)
        }
        Kind::Field if known(kind) => {
            require(c == 0, Cause::UnusedNumber)?;
            require(words::few_words(a) && b < a, Cause::TermValue)
        }
        _ => Err(Cause::TermKind),
    }
}
