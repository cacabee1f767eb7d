// The compiler: from a table to a netlist of cells in lent memory. docs/READING.md: "Cells".
// It refuses 1 to 9 as `terms::check` does, and 10 where the memory is under four times the
// cells; a refused call writes nothing.
//
//     compile   judges the table, then the memory, then writes
//     size      the cells that the memory has to hold
//     whole     load, the inputs, the main block, and in front of that what reads its done wire
//     blocks    the block of a term: its operands' blocks, and the pieces that join them
#![tactic(auto, using(crate::proofs::Terms::parts))]

pub mod blocks;

ghost use Rattle.std.specs.Prelude.{◌≡◌, ◌≤◌, length};
ghost use Rattle.meaning.specs.Terms.{main_of};
ghost use Rattle.meaning.specs.Counts.{whole_size};
ghost use Rattle.terms.specs.Judged.{Takes};
ghost use Rattle.circuit.specs.Compiling.{whole_cells, emitted, compiled_of, netlist_after};
ghost use Rattle.pieces.specs.Writing.{written, Room};

use circuit::{Cell, Compiled};
use meaning::{Cause, Refusal};
use pieces::cells::{front, place};
use pieces::rows::{inputs, wires};
use terms::{Accepted, Judged};

// The cells of the whole circuit of the main term.
fn size(table: &Accepted) -> u32
    requires { Takes table.now.numbers.now table.now.terms.now }
    ensures { (result ≡ whole_size (main_of table.now.numbers.now)) × (result ≤ 4096) }
{
    let main = table.main();
    6 + table.takes(main) + table.cells(main)
}

// The whole circuit of the main term: load; the inputs; the main block behind them and five cells
// more, which are written last.
fn whole(table: &Accepted, netlist: &mut [u32]) -> Compiled
    requires { (Takes table.now.numbers.now table.now.terms.now)
        × (Room netlist.old 0 (whole_size (main_of table.now.numbers.now))) }
    ensures { (result ≡ emitted (main_of table.now.numbers.now))
        × (netlist.new
        ≡ written netlist.old 0 (whole_cells (main_of table.now.numbers.now))) }
{
    let main = table.main();
    let n = table.takes(main);
    place(netlist, 0, Cell::Load);
    inputs(netlist, n);
    let mut words = [0u32; 16];
    wires(&mut words, 1, n);
    let block = blocks::emit(table, main, netlist, n + 6, n + 5, &mut words);
    front(netlist, n, block.done);
    Compiled {
        cells: block.next,
        ins: n,
        outs: table.gives(main),
        done: block.done,
        wires: words,
    }
}

// The netlist of a table at a width, from the first number of the lent memory on; past it the
// memory stays.
#[tactic(auto, using(crate::proofs::Terms::parts, terms::proofs::Facts::from_facts))]
pub fn compile(width: u32, table: &[u32], netlist: &mut [u32]) -> Result<Compiled, Refusal>
    ensures { (result ≡ compiled_of width table.now (length netlist.old))
        × (netlist.new ≡ netlist_after width table.now netlist.old) }
{
    let terms = terms::check(width, table)?;
    let accepted = Accepted {
        width,
        numbers: table,
        terms: &terms,
    };
    let judged = Judged { table: accepted };
    if netlist.len() < size(&judged.table) as usize * 4 {
        return Err(Cause::NetlistRoom.into());
    }
    Ok(whole(&judged.table, netlist))
}
