// The two lines that the program prints in the place of a text, each as far as the buffer goes.
ghost use Rattle.std.specs.Prelude.{◌≤◌};
ghost use Rattle.spelling.specs.Pieces.{Wrote};
ghost use Rattle.console.specs.Messages.{refused_line, no_list_line};

use meaning::Refusal;
use spelling::{blanks_of, fill};

// Writes the line of a refusal.
#[tactic(auto, unfolding(crate::specs::Messages::refused_line))]
pub fn refusal(text: &mut [u8], refusal: Refusal) -> usize
    ensures wrote { Wrote text.old 0 (refused_line refusal) result text.new }
    ensures upper_bound { result ≤ 640 }
{
    let blanks = blanks_of(1, refusal.cause.number(), refusal.place);
    fill(text, 0, b"refused N at X\n", blanks)
}

// Writes the line of what is no list of numbers.
#[tactic(auto, using(crate::proofs::Cases::no_blank))]
pub fn no_list(text: &mut [u8]) -> usize
    ensures wrote { Wrote text.old 0 no_list_line result text.new }
    ensures upper_bound { result ≤ 640 }
{
    fill(text, 0, b"not a number list\n", blanks_of(1, 0, 0))
}
