// The run of a term of an accepted table, on an array that holds the words: the term's inputs
// before it, its outputs after it. `term` goes by the kind, and each combinator calls it back on
// its operands, whose numbers are lower. Cycles are counted from the start of the whole run up to
// the budget, the limit, so no sum of them can wrap. docs/READING.md: "Cycles".
//
//     term     by the kind: the four below, or `leaves::leaf`
//     seq, par, ite, rounds   the combinators; `rounds` is the round evaluator of Rec
#![tactic(auto, using(crate::proofs::Parts::by_kind))]

ghost use Rattle.std.specs.Prelude.{◌≡◌};
ghost use Rattle.meaning.specs.Terms.{kind_of};
ghost use Rattle.leaves.specs.Results.{Leaves};
ghost use Rattle.runs.specs.Runs.{Startable, term_from};

use meaning::Kind;
use terms::Accepted;

// The run of term k, by its kind.
#[cycle(ite_par_rounds_seq_term)]
pub fn term(
    table: &Accepted,
    k: usize,
    words: &mut [u32; 16],
    start: u32,
    limit: u32,
) -> Option<u32>
    requires { Startable table.now.width table.now.numbers.now k start limit }
    ensures { Leaves (term_from table.now.width table.now.numbers.now k start limit words.old) result words.new }
{
    match table.kind(k) {
        Kind::Seq => seq(table, k, words, start, limit),
        Kind::Par => par(table, k, words, start, limit),
        Kind::Ite => ite(table, k, words, start, limit),
        Kind::Rec => rounds(table, k, words, start, limit),
        _ => {
            let kind = table.number(k, 0);
            let b = table.number(k, 2);
            leaves::leaf(table.width(), kind, b, words, start, limit)
        }
    }
}

// Seq: f, and from its end on g, on f's words.
#[cycle(ite_par_rounds_seq_term)]
fn seq(table: &Accepted, k: usize, words: &mut [u32; 16], start: u32, limit: u32) -> Option<u32>
    requires { (Startable table.now.width table.now.numbers.now k start limit) × (kind_of table.now.numbers.now k ≡ 1) }
    ensures { Leaves (term_from table.now.width table.now.numbers.now k start limit words.old) result words.new }
{
    let f = table.operand(k, 1);
    let g = table.operand(k, 2);
    let end = term(table, f, words, start, limit)?;
    term(table, g, words, end, limit)
}

// Par: f and g from the same start on the same words; the later end, and f's words, then g's.
#[cycle(ite_par_rounds_seq_term)]
fn par(table: &Accepted, k: usize, words: &mut [u32; 16], start: u32, limit: u32) -> Option<u32>
    requires { (Startable table.now.width table.now.numbers.now k start limit) × (kind_of table.now.numbers.now k ≡ 2) }
    ensures { Leaves (term_from table.now.width table.now.numbers.now k start limit words.old) result words.new }
{
    let f = table.operand(k, 1);
    let g = table.operand(k, 2);
    let mut others = *words;
    let first = term(table, f, words, start, limit)?;
    let second = term(table, g, &mut others, start, limit)?;
    leaves::join(words, table.gives(f) as usize, &others);
    Some(first.max(second))
}

// Ite: e on a copy of the words, and from its end on the branch that its word takes.
#[cycle(ite_par_rounds_seq_term)]
fn ite(table: &Accepted, k: usize, words: &mut [u32; 16], start: u32, limit: u32) -> Option<u32>
    requires { (Startable table.now.width table.now.numbers.now k start limit) × (kind_of table.now.numbers.now k ≡ 3) }
    ensures { Leaves (term_from table.now.width table.now.numbers.now k start limit words.old) result words.new }
{
    let e = table.operand(k, 1);
    let f = table.operand(k, 2);
    let g = table.operand(k, 3);
    let mut choice = *words;
    let end = term(table, e, &mut choice, start, limit)?;
    if choice[0] != 0 {
        term(table, f, words, end, limit)
    } else {
        term(table, g, words, end, limit)
    }
}

// Rec: round by round, e on a copy of the words; where its word is not zero f ends the run, else g
// goes on, and one cycle feeds its words back.
#[cycle(ite_par_rounds_seq_term)]
fn rounds(table: &Accepted, k: usize, words: &mut [u32; 16], start: u32, limit: u32) -> Option<u32>
    requires { (Startable table.now.width table.now.numbers.now k start limit) × (kind_of table.now.numbers.now k ≡ 4) }
    ensures { Leaves (term_from table.now.width table.now.numbers.now k start limit words.old) result words.new }
{
    let e = table.operand(k, 1);
    let f = table.operand(k, 2);
    let g = table.operand(k, 3);
    let mut at = start;
    loop {
        let mut test = *words;
        let tested = term(table, e, &mut test, at, limit)?;
        if test[0] != 0 {
            return term(table, f, words, tested, limit);
        }
        let end = term(table, g, words, tested, limit)?;
        if end == limit {
            return None;
        }
        at = end + 1;
    }
}
