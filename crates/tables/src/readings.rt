// What is known of a term's operands, and what the term gives: the refusals 7 and 8.
// docs/READING.md: "Term tables", "Refusal numbers".
ghost use Rattle.std.specs.Prelude.{◌≡◌, ◌≤◌, true};
ghost use Rattle.meaning.specs.Terms.{kind_of};
ghost use Rattle.meaning.specs.Checks.{operands_of, operands_below, operand_tree};
ghost use Rattle.meaning.specs.Answers.{known_of};
ghost use Rattle.shapes.specs.Shapes.{Small};
ghost use Rattle.tables.specs.Readings.{shape_of, Ready};

use meaning::{Cause, Kind, Known};

// What is known of operand j of term k.
#[tactic(auto, using(crate::proofs::Combined::low_operands))]
fn read(table: &[u32], k: usize, j: usize, terms: &[Known; 256]) -> Known
    requires ready { Ready table.now k terms.now }
    requires below { operands_below table.now k (operands_of (kind_of table.now k)) ≡ true }
    requires one { (1 ≤ j) × (j ≤ operands_of (kind_of table.now k)) }
    ensures is { result ≡ known_of (operand_tree table.now k j) }
    ensures small { Small result }
{
    terms[crate::operand(table, k, j)]
}

// What term k gives, its operands being lower terms, which are known.
#[tactic(auto, using(crate::proofs::Combined::found_by_kind))]
pub fn shape_of(table: &[u32], k: usize, terms: &[Known; 256]) -> Result<Known, Cause>
    requires ready { Ready table.now k terms.now }
    requires below { operands_below table.now k (operands_of (kind_of table.now k)) ≡ true }
    ensures { result ≡ shape_of table.now k }
{
    let kind = crate::number(table, k, 0);
    match Kind::from(kind) {
        Kind::Seq => shapes::seq(read(table, k, 1, terms), read(table, k, 2, terms)),
        Kind::Par => shapes::par(read(table, k, 1, terms), read(table, k, 2, terms)),
        Kind::Ite => {
            let e = read(table, k, 1, terms);
            shapes::ite(e, read(table, k, 2, terms), read(table, k, 3, terms))
        }
        Kind::Rec => {
            let e = read(table, k, 1, terms);
            shapes::rec(e, read(table, k, 2, terms), read(table, k, 3, terms))
        }
        _ => Ok(shapes::leaf(kind, crate::number(table, k, 1))),
    }
}
