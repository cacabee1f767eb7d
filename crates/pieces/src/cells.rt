// Single cells and fixed groups of them, written into a lent netlist.
// A cell is written by `put` alone; what stands elsewhere in the netlist stays.
// docs/READING.md: "Cells".
ghost use Rattle.std.specs.Prelude.{◌≡◌, [], ◌∷◌, ◌+◌, length, map};
ghost use Rattle.circuit.specs.Cells.{cell};
ghost use Rattle.circuit.specs.Gates.{cell_of};
ghost use Rattle.circuit.specs.Pieces.{«rise»};
ghost use Rattle.circuit.specs.Compiling.{«front»};
ghost use Rattle.pieces.specs.Writing.{written, Room, gates_on, ending_on};

use circuit::Cell;

// Writes one cell.
#[tactic(auto, unfolding(crate::specs::Writing::written), using(crate::proofs::Placing::copied))]
pub fn put(netlist: &mut [u32], at: u32, kind: u32, x: u32, y: u32, z: u32)
    requires { Room netlist.old at 1 }
    ensures { netlist.new
        ≡ written netlist.old at (cell kind x y z ∷ []) }
{
    let i = at as usize * 4;
    netlist[i..i + 4].copy_from_slice(&[kind, x, y, z]);
}

// Writes one cell, given as a value.
pub fn place(netlist: &mut [u32], at: u32, cell: Cell)
    requires { Room netlist.old at 1 }
    ensures { netlist.new
        ≡ written netlist.old at (cell_of cell ∷ []) }
{
    let [kind, x, y, z] = cell.numbers();
    put(netlist, at, kind, x, y, z);
}

// Writes cells in a row.
pub fn place_all(netlist: &mut [u32], at: u32, cells: &[Cell])
    requires { Room netlist.old at (length cells.now) }
    ensures { netlist.new
        ≡ written netlist.old at (map cell_of cells.now) }
{
    for (i, cell) in cells.iter().enumerate() {
        place(netlist, at + i as u32, *cell);
    }
}

// The three cells that see `done` rise.
pub fn rise(netlist: &mut [u32], at: u32, done: u32)
    requires { Room netlist.old at 3 }
    ensures { netlist.new
        ≡ written netlist.old at («rise» at done) }
{
    let cells = [
        Cell::HighRegister(done),
        Cell::Not(at),
        Cell::And(done, at + 1),
    ];
    place_all(netlist, at, &cells);
}

// Between a test and its branches: the rise of its done; its word is not zero; not; two starts.
pub fn gates(netlist: &mut [u32], at: u32, done: u32, word: u32)
    requires { Room netlist.old at 7 }
    ensures { netlist.new
        ≡ written netlist.old at (gates_on at done word) }
{
    rise(netlist, at, done);
    let cells = [
        Cell::NonZero(word),
        Cell::Not(at + 3),
        Cell::And(at + 2, at + 3),
        Cell::And(at + 2, at + 4),
    ];
    place_all(netlist, at + 3, &cells);
}

// The end of a Rec: the rise of g's done, all three dones, not of that rise, and done.
pub fn ending(netlist: &mut [u32], at: u32, tested: u32, left: u32, again: u32)
    requires { Room netlist.old at 7 }
    ensures { netlist.new
        ≡ written netlist.old at (ending_on at tested left again) }
{
    rise(netlist, at, again);
    let cells = [
        Cell::And(tested, left),
        Cell::And(at + 3, again),
        Cell::Not(at + 2),
        Cell::And(at + 4, at + 5),
    ];
    place_all(netlist, at + 3, &cells);
}

// After load and the n inputs: load a cycle ago, not; done a cycle ago; the rise of load; start.
pub fn front(netlist: &mut [u32], n: u32, done: u32)
    requires { Room netlist.old (n + 1) 5 }
    ensures { netlist.new
        ≡ written netlist.old (n + 1) («front» n done) }
{
    let cells = [
        Cell::HighRegister(0),
        Cell::Not(n + 1),
        Cell::HighRegister(done),
        Cell::And(0, n + 2),
        Cell::And(n + 4, n + 3),
    ];
    place_all(netlist, n + 1, &cells);
}
