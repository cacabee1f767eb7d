// The block of a term, kind by kind. docs/READING.md: "Cells".
// Emission recurses on operands, the term number falling at each call; each use of a term is a
// block of its own, and each cell is written once. Where a cell reads a later wire, it is written
// after the block that drives it. An array lent by the caller holds the block's input wires before
// and its output wires after, so that a nested block takes little stack.
//
//     emit     goes by the kind
//     leaf     9 and above
//     seq par  two operands
//     ite rec  a test and two branches, which `fork` emits
ghost use Rattle.meaning.specs.Terms.{tree};
ghost use Rattle.compiler.specs.Building.{Ready, ReadyAs, Emits, ForkReady, Forks, fork_size};
ghost use Rattle.compiler.specs.Building.{fork_at};

use circuit::Cell;
use meaning::Kind;
use pieces::cells::{gates, place, rise};
use pieces::leaves::{Made, leaf};
use pieces::rows::{join, keep};
use pieces::seams::{Forked, feed, merge, round};
use terms::Accepted;

// Seq: f; the rise of its done, which starts g on f's outputs; both dones.
#[cycle(emit_fork_ite_par_rec_seq)]
fn seq(
    table: &Accepted,
    k: usize,
    netlist: &mut [u32],
    at: u32,
    start: u32,
    words: &mut [u32; 16],
) -> Made
    requires { ReadyAs Kind.Seq table.now.numbers.now table.now.terms.now k netlist.old at }
    ensures { Emits (tree table.now.numbers.now k) at start words.old
        netlist.old netlist.new words.new result }
{
    let f = table.operand(k, 1);
    let g = table.operand(k, 2);
    let first = emit(table, f, netlist, at, start, words);
    let p = first.next;
    rise(netlist, p, first.done);
    let second = emit(table, g, netlist, p + 3, p + 2, words);
    let q = second.next;
    place(netlist, q, Cell::And(first.done, second.done));
    Made {
        next: q + 1,
        done: q,
    }
}

// Par: f and g from one start on the same words; both dones.
#[cycle(emit_fork_ite_par_rec_seq)]
fn par(
    table: &Accepted,
    k: usize,
    netlist: &mut [u32],
    at: u32,
    start: u32,
    words: &mut [u32; 16],
) -> Made
    requires { ReadyAs Kind.Par table.now.numbers.now table.now.terms.now k netlist.old at }
    ensures { Emits (tree table.now.numbers.now k) at start words.old
        netlist.old netlist.new words.new result }
{
    let f = table.operand(k, 1);
    let g = table.operand(k, 2);
    let mut others = *words;
    let first = emit(table, f, netlist, at, start, words);
    let second = emit(table, g, netlist, first.next, start, &mut others);
    let q = second.next;
    place(netlist, q, Cell::And(first.done, second.done));
    join(words, table.gives(f), &others[..table.gives(g) as usize]);
    Made {
        next: q + 1,
        done: q,
    }
}

// A test and its branches: e on the live words; its gates; f and then g on the kept words. The
// outputs of f are left in place of the live words, and those of g in place of the kept ones.
#[cycle(emit_fork_ite_par_rec_seq)]
fn fork(
    table: &Accepted,
    k: usize,
    netlist: &mut [u32],
    at: u32,
    start: u32,
    live: &mut [u32; 16],
    kept: &mut [u32; 16],
) -> Forked
    requires { ForkReady table.now.numbers.now table.now.terms.now k netlist.old at }
    ensures { Forks (fork_at table.now.numbers.now k at start live.old kept.old) at
        (fork_size table.now.numbers.now k) netlist.old netlist.new live.new kept.new result }
{
    let e = table.operand(k, 1);
    let f = table.operand(k, 2);
    let g = table.operand(k, 3);
    let test = emit(table, e, netlist, at, start, live);
    let gate = test.next;
    gates(netlist, gate, test.done, live[0]);
    *live = *kept;
    let yes = emit(table, f, netlist, gate + 7, gate + 5, live);
    let no = emit(table, g, netlist, yes.next, gate + 6, kept);
    Forked {
        gate,
        next: no.next,
        tested: test.done,
        left: yes.done,
        again: no.done,
    }
}

// Ite: the inputs kept; the test on the inputs and its branches; all three dones; each output
// chosen on the test's word.
#[cycle(emit_fork_ite_par_rec_seq)]
fn ite(
    table: &Accepted,
    k: usize,
    netlist: &mut [u32],
    at: u32,
    start: u32,
    words: &mut [u32; 16],
) -> Made
    requires { ReadyAs Kind.Ite table.now.numbers.now table.now.terms.now k netlist.old at }
    ensures { Emits (tree table.now.numbers.now k) at start words.old
        netlist.old netlist.new words.new result }
{
    let n = table.takes(k);
    let mut others = [0u32; 16];
    keep(netlist, at, start, &words[..n as usize], &mut others);
    let both = fork(table, k, netlist, at + 2 * n, start, words, &mut others);
    merge(netlist, both, words, &others[..table.gives(k) as usize])
}

// Rec: a round's start and its words, kept; the test and its branches on these; the ending, and
// what feeds g's outputs back.
#[cycle(emit_fork_ite_par_rec_seq)]
fn rec(
    table: &Accepted,
    k: usize,
    netlist: &mut [u32],
    at: u32,
    start: u32,
    words: &mut [u32; 16],
) -> Made
    requires { ReadyAs Kind.Rec table.now.numbers.now table.now.terms.now k netlist.old at }
    ensures { Emits (tree table.now.numbers.now k) at start words.old
        netlist.old netlist.new words.new result }
{
    let n = table.takes(k);
    let mut others = [0u32; 16];
    round(netlist, at, start, words, &mut others, n);
    let first = at + 2 + 4 * n;
    let both = fork(table, k, netlist, first, at + 1 + n, words, &mut others);
    feed(netlist, at, both, &others[..n as usize])
}

// The block of term k.
#[cycle(emit_fork_ite_par_rec_seq)]
pub fn emit(
    table: &Accepted,
    k: usize,
    netlist: &mut [u32],
    at: u32,
    start: u32,
    words: &mut [u32; 16],
) -> Made
    requires { Ready table.now.numbers.now table.now.terms.now k netlist.old at }
    ensures { Emits (tree table.now.numbers.now k) at start words.old
        netlist.old netlist.new words.new result }
{
    match table.kind(k) {
        Kind::Seq => seq(table, k, netlist, at, start, words),
        Kind::Par => par(table, k, netlist, at, start, words),
        Kind::Ite => ite(table, k, netlist, at, start, words),
        Kind::Rec => rec(table, k, netlist, at, start, words),
        _ => leaf(
            netlist,
            at,
            start,
            table.number(k, 0),
            table.number(k, 2),
            words,
        ),
    }
}
