// Seams: what stands in front of and behind a test with its branches, in an Ite and in a Rec.
// docs/READING.md: "Cells".
ghost use Rattle.std.specs.Prelude.{◌≡◌, ◌∷◌, ◌+◌, ◌*◌, ◌≤◌, length, take};
ghost use Rattle.meaning.specs.Choices.{padded};
ghost use Rattle.circuit.specs.Cells.{low_register};
ghost use Rattle.circuit.specs.Pieces.{wires_from, «registers»};
ghost use Rattle.pieces.specs.Writing.{written, Room, ending_on};
ghost use Rattle.pieces.specs.Seams.{round_of, merge_cells};

use crate::cells::{ending, place, place_all};
use crate::leaves::Made;
use crate::rows::{choose, keep, registers, wires};
use circuit::Cell;

// A test with two branches in the netlist: where its gates stand and what follows it; the done
// wires of the test, of the branch left by and of the other.
#[derive(Clone, Copy, Debug, PartialEq, Eq)]
pub struct Forked {
    pub gate: u32,
    pub next: u32,
    pub tested: u32,
    pub left: u32,
    pub again: u32,
}

// In front of the test of a Rec: what starts a round; the words of the round, from g's registers
// or the inputs; these kept.
pub fn round(
    netlist: &mut [u32],
    at: u32,
    start: u32,
    words: &mut [u32; 16],
    kept: &mut [u32; 16],
    n: u32,
)
    requires { (n ≤ 16) × (Room netlist.old (at + 1 + n) (1 + 3 * n)) }
    ensures { (words.new ≡ padded 16 (round_of at start (take n words.old)).us)
        × (kept.new ≡ padded 16 (round_of at start (take n words.old)).ks)
        × (netlist.new ≡ written netlist.old (at + 1 + n)
        (round_of at start (take n words.old)).cells) }
{
    let o = at + 1 + n;
    let i = n as usize;
    place(netlist, o, Cell::Or(start, at));
    wires(kept, at + 1, n);
    choose(netlist, o + 1, at, &kept[..i], &words[..i]);
    wires(words, o + 1, n);
    keep(netlist, o + 1 + n, o, &words[..i], kept);
}

// Behind the branches of a Rec: the ending, and at the front what reads g: "again", a register of
// g's rise, and a register of each of g's outputs.
pub fn feed(netlist: &mut [u32], at: u32, both: Forked, words: &[u32]) -> Made
    requires { (Room netlist.old both.next 7) × (at + 1 + length words.now ≤ both.next) }
    ensures { (result ≡ record { next = both.next + 7; done = both.next + 6 })
        × (netlist.new ≡ written (written netlist.old both.next
        (ending_on both.next both.tested both.left both.again)) at
        (low_register (both.next + 2) ∷ «registers» words.now)) }
{
    let p = both.next;
    ending(netlist, p, both.tested, both.left, both.again);
    registers(netlist, at + 1, words);
    place(netlist, at, Cell::LowRegister(p + 2));
    Made {
        next: p + 7,
        done: p + 6,
    }
}

// Behind the branches of an Ite: all three dones; each output chosen on the test's word, f's where
// it is not zero.
pub fn merge(netlist: &mut [u32], both: Forked, words: &mut [u32; 16], others: &[u32]) -> Made
    requires { (length others.now ≤ 16) × (Room netlist.old both.next (2 + length others.now))
        × (both.gate ≤ 4096) }
    ensures { (result ≡ record { next = both.next + 2 + length others.now; done = both.next + 1 })
        × (words.new ≡ padded 16 (wires_from (both.next + 2) (length others.now)))
        × (netlist.new ≡ written netlist.old both.next
        (merge_cells both (take (length others.now) words.old) others.now)) }
{
    let p = both.next;
    let m = others.len();
    let dones = [Cell::And(both.tested, both.left), Cell::And(p, both.again)];
    place_all(netlist, p, &dones);
    choose(netlist, p + 2, both.gate + 3, &words[..m], others);
    wires(words, p + 2, m as u32);
    Made {
        next: p + 2 + m as u32,
        done: p + 1,
    }
}
