// A table's numbers, and its refusals 3 to 8 term by term, with what they find of each term.
// docs/READING.md: "Term tables", "Refusal numbers".
//
//     scanned   lowest term first: `judge`
//     judge     `early`, `lower_operands`, `readings::shape_of`
//     early     3 to 5, by the term's own numbers (`kinds`)
//     readings  7 and 8, by what is known of the operands (`shapes`)
#![tactic(auto)]

mod readings;

ghost use Rattle.std.specs.Prelude.{◌≡◌, ◌*◌, ◌+◌, ◌<◌, ◌≤◌, length, set};
ghost use Rattle.meaning.specs.Refusals.{on_verdict};
ghost use Rattle.meaning.specs.Terms.{number_of, tree};
ghost use Rattle.meaning.specs.Checks.{refusal_at};
ghost use Rattle.meaning.specs.Answers.{known_of};
ghost use Rattle.tables.specs.Readings.{early_at, lower_operands_at, Ready};
ghost use Rattle.tables.specs.Scans.{Scanned};

use meaning::{Cause, Known, Refusal};
use words::Width;

// What stands for a term that is not judged yet.
const NOTHING_KNOWN: Known = Known {
    ins: 0,
    outs: 0,
    cells: 0,
};

// Number j of term k.
pub fn number(table: &[u32], k: usize, j: usize) -> u32
    requires { (j < 4) × (k * 4 + 4 ≤ length table.now) }
    ensures { result ≡ number_of table.now k j }
{
    table[k * 4 + j]
}

// The same number, as the term that it names.
pub fn operand(table: &[u32], k: usize, j: usize) -> usize
    requires { (j < 4) × (k * 4 + 4 ≤ length table.now) }
    ensures { result ≡ number_of table.now k j }
{
    number(table, k, j) as usize
}

// 3 to 5 of term k.
fn early(width: Width, table: &[u32], k: usize) -> Result<(), Cause>
    requires { k * 4 + 4 ≤ length table.now }
    ensures { result ≡ early_at width.bits table.now k }
{
    let kind = number(table, k, 0);
    let a = number(table, k, 1);
    let b = number(table, k, 2);
    let c = number(table, k, 3);
    kinds::early(width, kind, a, b, c)
}

// 6: the operands of term k are lower terms.
fn lower_operands(table: &[u32], k: usize) -> Result<(), Cause>
    requires { k * 4 + 4 ≤ length table.now }
    ensures { result ≡ lower_operands_at table.now k }
{
    for j in 1..=kinds::operands(number(table, k, 0)) {
        if operand(table, k, j) >= k {
            return Err(Cause::Operand);
        }
    }
    Ok(())
}

// 3 to 8 of term k; where it passes, what it gives joins what is known of the lower terms.
#[tactic(auto, using(crate::proofs::Scan::judging))]
fn judge(width: Width, table: &[u32], k: usize, terms: &mut [Known; 256]) -> Result<(), Cause>
    requires { Ready table.now k terms.old }
    ensures check { result ≡ refusal_at width.bits table.now k }
    ensures known { terms.new ≡ on_verdict (refusal_at width.bits table.now k)
        (set terms.old k (known_of (tree table.now k))) (λ cause. terms.old) }
{
    early(width, table, k)?;
    if kinds::operands(number(table, k, 0)) == 0 {
        terms[k] = shapes::leaf(number(table, k, 0), number(table, k, 1));
        return Ok(());
    }
    lower_operands(table, k)?;
    terms[k] = readings::shape_of(table, k, terms)?;
    Ok(())
}

// 3 to 8: the first refusal, or what is known of every term.
pub fn scanned(width: Width, table: &[u32]) -> Result<[Known; 256], Refusal>
    requires { length table.now ≤ 1024 }
    ensures { Scanned width.bits table.now result }
{
    let mut terms = [NOTHING_KNOWN; 256];
    for k in 0..table.len() / 4 {
        let place = k as u32;
        judge(width, table, k, &mut terms).map_err(|cause| Refusal { cause, place })?;
    }
    Ok(terms)
}
