// Rows: one wire or cell for each of a block's words, at most 16.
// The words are a slice; a row of n that is written into a lent array of 16 has 0 past n.
// docs/READING.md: "Cells".
ghost use Rattle.std.specs.Prelude.{◌≡◌, ◌+◌, ◌*◌, ◌<◌, ◌≤◌, ℕ, length, map};
ghost use Rattle.std.specs.List.{range_with_len};
ghost use Rattle.meaning.specs.Choices.{padded};
ghost use Rattle.circuit.specs.Gates.{cell_of};
ghost use Rattle.circuit.specs.Pieces.{wires_from, keeps, kept, choices, «registers»};
ghost use Rattle.circuit.specs.Compiling.{input_cells};
ghost use Rattle.pieces.specs.Writing.{placed, written, Room};

use crate::cells::{place, place_all};
use circuit::Cell;

// The n wires from `at` on.
pub fn wires(row: &mut [u32; 16], at: u32, n: u32)
    requires { (n ≤ 16) × (at ≤ 4096) }
    ensures { row.new ≡ padded 16 (wires_from at n) }
{
    *row = [0; 16];
    for j in 0..n {
        row[j as usize] = at + j;
    }
}

// Keeps words under `start`: for each a register and a choice. The row gets the registers.
pub fn keep(netlist: &mut [u32], at: u32, start: u32, words: &[u32], row: &mut [u32; 16])
    requires { (length words.now ≤ 16) × (Room netlist.old at (2 * length words.now)) }
    ensures { (row.new ≡ padded 16 (kept at words.now))
        × (netlist.new ≡ written netlist.old at (keeps at start words.now)) }
{
    *row = [0; 16];
    for (j, word) in words.iter().enumerate() {
        let p = at + 2 * j as u32;
        let pair = [Cell::WordRegister(p + 1), Cell::Choice(start, *word, p)];
        place_all(netlist, p, &pair);
        row[j] = p;
    }
}

// A cell for each number below n: any row of which the closure gives the cells is written.
fn place_each<F: Fn(u32) -> Cell>(netlist: &mut [u32], at: u32, n: u32, cell: F)
    requires callable { (j : ℕ) → j < n → F.pre cell j }
    requires room { Room netlist.old at n }
    ensures { (row : ℕ → _)
        → ((j : ℕ) (c : _) → j < n → F.post cell j c → cell_of c ≡ row j)
        → netlist.new ≡ written netlist.old at (map row (range_with_len 0 n)) }
{
    for j in 0..n {
        place(netlist, at + j, cell(j));
    }
}

// Chooses words on a bit, the first of each two where it is high.
pub fn choose(netlist: &mut [u32], at: u32, bit: u32, first: &[u32], second: &[u32])
    requires { (length first.now ≡ length second.now) × (Room netlist.old at (length first.now)) }
    ensures { netlist.new ≡ written netlist.old at (choices bit first.now second.now) }
{
    place_each(
        netlist,
        at,
        first.len() as u32,
        |j| Cell::Choice(bit, first[j as usize], second[j as usize]),
    );
}

// A register of each word.
pub fn registers(netlist: &mut [u32], at: u32, words: &[u32])
    requires { Room netlist.old at (length words.now) }
    ensures { netlist.new ≡ written netlist.old at («registers» words.now) }
{
    let n = words.len() as u32;
    place_each(netlist, at, n, |j| Cell::WordRegister(words[j as usize]));
}

// The n input cells, behind load.
pub fn inputs(netlist: &mut [u32], n: u32)
    requires { (n ≤ 16) × (Room netlist.old 1 n) }
    ensures { netlist.new
        ≡ written netlist.old 1 (input_cells 0 n) }
{
    place_each(netlist, 1, n, Cell::Input);
}

// The first n words with others behind them.
pub fn join(words: &mut [u32; 16], n: u32, others: &[u32])
    requires { n + length others.now ≤ 16 }
    ensures { words.new ≡ placed words.old n others.now }
{
    let n = n as usize;
    words[n..n + others.len()].copy_from_slice(others);
}
