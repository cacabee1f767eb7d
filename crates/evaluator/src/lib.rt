// The evaluator of term tables: what the main term gives on words, and in how many cycles, within a
// budget. Refuses 1 to 9 as the table's checks do, then 11. A refused or unfinished call gives no
// words. docs/READING.md: "Term tables", "Cycles", "Refusal numbers".
//
//     evaluate  the checks, the words, then the run of the main term
//     inputs    check 11, and the words in an array of 16
//     ran       the run of the main term, by the term evaluator of `runs`
#![tactic(auto)]

mod inputs;

ghost use Rattle.std.specs.Prelude.{◌≡◌, ◌≤◌, length};
ghost use Rattle.meaning.specs.Refusals.{passed};
ghost use Rattle.meaning.specs.Checks.{verdict_of};
ghost use Rattle.meaning.specs.Answers.{evaluated_of};
ghost use Rattle.evaluator.specs.Answered.{ran_on};

use meaning::{Answer, Cause, Refusal};
use terms::{Accepted, Judged};

// The run of the main term of a table that is accepted at its width, on words that fit it.
fn ran(table: &Accepted, input: &[u32], budget: u32) -> Option<Answer>
    requires { (verdict_of table.now.width table.now.numbers.now ≡ passed) × (length input.now ≤ 16) }
    ensures { result ≡ ran_on table.now.width table.now.numbers.now input.now budget }
{
    let main = table.main();
    let mut words = inputs::padded(input);
    let cycles = runs::term(table, main, &mut words, 0, budget)?;
    Some(Answer {
        outs: table.gives(main),
        cycles,
        words,
    })
}

// What the main term of a table gives on the words, and its cycles, where they are within the
// budget.
#[tactic(auto, using(crate::proofs::Answered::in_order, terms::proofs::Facts::from_facts))]
pub fn evaluate(
    width: u32,
    table: &[u32],
    words: &[u32],
    budget: u32,
) -> Result<Option<Answer>, Refusal>
    ensures { result ≡ evaluated_of width table.now words.now budget }
{
    let terms = terms::check(width, table)?;
    let accepted = Accepted {
        width,
        numbers: table,
        terms: &terms,
    };
    let judged = Judged { table: accepted };
    let taken = judged.table.takes(judged.table.main());
    let width = judged.table.width();
    if !inputs::fit(width, taken as usize, words) {
        return Err(Cause::InputWords.into());
    }
    Ok(ran(&judged.table, words, budget))
}
