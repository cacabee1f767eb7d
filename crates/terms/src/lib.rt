// The checks 1 to 9 of a table, and a table that passed them, with what is known of each term.
// docs/READING.md: "Term tables", "Refusal numbers".
//
//     check      the width, the length, `tables::scanned`, and the size of the whole circuit
//     Accepted   a table that passed, and what its terms are
//     Judged     one that passed at its own width, with all that the checks found
#![tactic(auto)]

ghost use Rattle.std.specs.Prelude.{◌≡◌, ◌<◌, ◌≤◌, ◌%◌, eqb, leb, Ok};
ghost use Rattle.meaning.specs.Choices.{and};
ghost use Rattle.meaning.specs.Terms.{number_of, kind_of, count, last_of, tree};
ghost use Rattle.meaning.specs.Kinds.{kind_named};
ghost use Rattle.meaning.specs.Counts.{ins, outs, size};
ghost use Rattle.meaning.specs.Checks.{operand_tree};
ghost use Rattle.meaning.specs.Answers.{facts_of};
ghost use Rattle.terms.specs.Judged.{Passing, Takes, Gives};

use meaning::{Cause, Kind, Known, Refusal};
use words::Width;

// A table that some width accepts, the width that a run goes by, and an array that has how many
// words each term gives. A method that needs more of the array asks for it.
#[derive(Clone, Copy)]
pub struct Accepted<'a> {
    pub width: u32,
    pub numbers: &'a [u32],
    pub terms: &'a [Known; 256],
    ghost narrow: { width ≤ 32 },
    ghost somewhere: { ∥ Passing numbers.now ∥₁ },
    ghost given: { Gives numbers.now terms.now },
}

// A table that passed every check at its own width, with all that they found of each term.
#[derive(Clone, Copy)]
pub struct Judged<'a> {
    pub table: Accepted<'a>,
    ghost judged: { facts_of table.width table.numbers.now ≡ Ok table.terms.now },
}

impl Accepted<'_> {
    // How many bits its words have.
    pub fn width(&self) -> Width
        ensures { result.bits ≡ self.now.width }
    {
        Width { bits: self.width }
    }

    // The main term: the last.
    #[tactic(auto, using(crate::proofs::Facts::some_terms))]
    pub fn main(&self) -> usize
        ensures last { result ≡ last_of self.now.numbers.now }
        ensures there { result < count self.now.numbers.now }
    {
        self.numbers.len() / 4 - 1
    }

    // Number j of term k.
    pub fn number(&self, k: usize, j: usize) -> u32
        requires { (k < count self.now.numbers.now) × (j < 4) }
        ensures { result ≡ number_of self.now.numbers.now k j }
    {
        tables::number(self.numbers, k, j)
    }

    // What term k does.
    pub fn kind(&self, k: usize) -> Kind
        requires { k < count self.now.numbers.now }
        ensures { result ≡ kind_named (kind_of self.now.numbers.now k) }
    {
        Kind::from(self.number(k, 0))
    }

    // The term that number j of term k names.
    pub fn operand(&self, k: usize, j: usize) -> usize
        requires { (k < count self.now.numbers.now) × (j < 4) }
        ensures { result ≡ number_of self.now.numbers.now k j }
    {
        tables::operand(self.numbers, k, j)
    }

    // How many words term k takes, where the array has it.
    #[tactic(auto, using(crate::proofs::Facts::few_terms))]
    pub fn takes(&self, k: usize) -> u32
        requires { (k < count self.now.numbers.now) × (Takes self.now.numbers.now self.now.terms.now) }
        ensures { result ≡ ins (tree self.now.numbers.now k) }
    {
        self.terms[k].ins
    }

    // How many words term k gives.
    #[tactic(auto, using(crate::proofs::Facts::few_terms))]
    pub fn gives(&self, k: usize) -> u32
        requires { k < count self.now.numbers.now }
        ensures { result ≡ outs (tree self.now.numbers.now k) }
    {
        self.terms[k].outs
    }

    // The cells of term k's own block, operand by operand.
    #[tactic(auto, using(crate::proofs::Sizes::cells_by_kind))]
    #[cycle(cells)]
    pub fn cells(&self, k: usize) -> u32
        requires { (k < count self.now.numbers.now) × (Takes self.now.numbers.now self.now.terms.now)
            × (size (tree self.now.numbers.now k) ≤ 4096) }
        ensures { result ≡ size (tree self.now.numbers.now k) }
    {
        match self.kind(k) {
            Kind::Seq => self.part(k, 1) + self.part(k, 2) + 4,
            Kind::Par => self.part(k, 1) + self.part(k, 2) + 1,
            Kind::Ite => {
                let parts = self.part(k, 1) + self.part(k, 2) + self.part(k, 3);
                2 * self.takes(k) + parts + 9 + self.gives(k)
            }
            Kind::Rec => {
                let parts = self.part(k, 1) + self.part(k, 2) + self.part(k, 3);
                4 * self.takes(k) + parts + 16
            }
            _ => 4,
        }
    }

    // The cells of the term that number j of term k names, a lower one.
    #[cycle(cells)]
    fn part(&self, k: usize, j: usize) -> u32
        requires there { (k < count self.now.numbers.now) × (j < 4) }
        requires known { Takes self.now.numbers.now self.now.terms.now }
        requires lower { number_of self.now.numbers.now k j < k }
        requires few { size (operand_tree self.now.numbers.now k j) ≤ 4096 }
        ensures { result ≡ size (operand_tree self.now.numbers.now k j) }
    {
        self.cells(self.operand(k, j))
    }
}

// 2: a length is that of 1 to 256 terms.
fn length_fits(len: usize) -> bool
    ensures { result ≡ and (leb 1 len) (and (eqb (len % 4) 0) (leb len 1024)) }
{
    1 <= len && len % 4 == 0 && len <= 1024
}

// 1 to 9, and what is known of each term.
#[tactic(auto, using(crate::proofs::Whole::in_order))]
pub fn check(width: u32, table: &[u32]) -> Result<[Known; 256], Refusal>
    ensures { result ≡ facts_of width table.now }
{
    let width = Width::try_from(width)?;
    if !length_fits(table.len()) {
        return Err(Cause::TableLength.into());
    }
    let terms = tables::scanned(width, table)?;
    let main = terms[table.len() / 4 - 1];
    if 6 + main.ins + main.cells > 4096 {
        return Err(Cause::CircuitSize.into());
    }
    Ok(terms)
}
