// The block of a term without operands, kind 9 and above.
// docs/READING.md: "Cells".
ghost use Rattle.std.specs.Prelude.{◌≡◌, ◌+◌, ◌<◌};
ghost use Rattle.meaning.specs.Choices.{padded};
ghost use Rattle.circuit.specs.Gates.{cell_of};
ghost use Rattle.circuit.specs.Pieces.{wires_from};
ghost use Rattle.circuit.specs.Blocks.{operation_cell, leaf_block};
ghost use Rattle.pieces.specs.Writing.{written, Room};

use crate::cells::place_all;
use crate::rows::wires;
use circuit::Cell;
use meaning::Kind;

// A block that stands in the netlist: the wire that follows it, and its done wire.
#[derive(Clone, Copy, Debug, PartialEq, Eq)]
pub struct Made {
    pub next: u32,
    pub done: u32,
}

// The operation cell of a leaf: a constant, a copy of a word, or its kind on its words.
fn operation(kind: u32, value: u32, words: &[u32; 16]) -> Cell
    requires { kind < 13 → (kind ≡ 9 → ⊥) → value < 16 }
    ensures { cell_of result ≡ operation_cell kind value words.now }
{
    match Kind::from(kind) {
        Kind::Const => Cell::Constant(value),
        Kind::Binary => Cell::Operation(kind, words[0], words[1]),
        Kind::Unary => Cell::Operation(kind, words[0], 0),
        _ => Cell::Copy(words[value as usize]),
    }
}

// Kind 9 and above: not start, which is done; the output's register; the operation; a choice
// between both. Of the words only the output's wire is left.
pub fn leaf(
    netlist: &mut [u32],
    at: u32,
    start: u32,
    kind: u32,
    value: u32,
    words: &mut [u32; 16],
) -> Made
    requires { (Room netlist.old at 4) × (kind < 13 → (kind ≡ 9 → ⊥) → value < 16) }
    ensures { (result ≡ record { next = at + 4; done = at })
        × (words.new ≡ padded 16 (wires_from (at + 1) 1))
        × (netlist.new ≡ written netlist.old at
        (leaf_block kind value at start words.old).cells) }
{
    let cells = [
        Cell::Not(start),
        Cell::WordRegister(at + 3),
        operation(kind, value, words),
        Cell::Choice(start, at + 2, at + 1),
    ];
    place_all(netlist, at, &cells);
    wires(words, at + 1, 1);
    Made {
        next: at + 4,
        done: at,
    }
}
