// Netlists as values: the cells that the compiler writes and its answer, what a cell's kind does,
// and what its numbers are for. How netlists are emitted, clocked and judged, and the promise about
// them is in `specs/`. What is shown of blocks, checks and clock is in `proofs/`; the crate
// `promise` has the theorems. docs/READING.md: "Cells".
#![tactic(auto)]

ghost use Rattle.std.specs.Prelude.{◌≡◌, [], ◌∷◌};
ghost use Rattle.circuit.specs.Cells.{numbers_of};
ghost use Rattle.circuit.specs.Gates.{gate_named, cell_of};

// A cell with what it reads: wires, the number of an input word, or a constant.
#[derive(Clone, Copy, Debug, PartialEq, Eq)]
pub enum Cell {
    Load,
    Not(u32),
    And(u32, u32),
    Or(u32, u32),
    LowRegister(u32),
    HighRegister(u32),
    NonZero(u32),
    Input(u32),
    Constant(u32),
    WordRegister(u32),
    // The word of the second wire where the first is high, else that of the third.
    Choice(u32, u32, u32),
    Copy(u32),
    // An operation of a kind on two wires; one that reads one word has 0 for the second.
    Operation(u32, u32, u32),
}

impl Cell {
    // The four numbers of a cell in a netlist: its kind, x, y, z.
    pub fn numbers(self) -> [u32; 4]
        ensures { result ≡ numbers_of (cell_of self ∷ []) }
    {
        match self {
            Cell::Load => [0, 0, 0, 0],
            Cell::Not(x) => [1, x, 0, 0],
            Cell::And(x, y) => [2, x, y, 0],
            Cell::Or(x, y) => [3, x, y, 0],
            Cell::LowRegister(x) => [4, x, 0, 0],
            Cell::HighRegister(x) => [5, x, 0, 0],
            Cell::NonZero(x) => [6, x, 0, 0],
            Cell::Input(word) => [8, word, 0, 0],
            Cell::Constant(value) => [9, value, 0, 0],
            Cell::WordRegister(x) => [10, x, 0, 0],
            Cell::Choice(x, y, z) => [11, x, y, z],
            Cell::Copy(x) => [12, x, 0, 0],
            Cell::Operation(kind, x, y) => [kind, x, y, 0],
        }
    }
}

// What a cell of a kind does; the operations on two words and those on one are a gate each.
#[derive(Clone, Copy, Debug, PartialEq, Eq)]
pub enum Gate {
    Load,
    Not,
    And,
    Or,
    LowRegister,
    HighRegister,
    NonZero,
    Input,
    Constant,
    WordRegister,
    Choice,
    Copy,
    Binary,
    Unary,
}

// Every number names one, those that are no kind too; refusal 13 judges those.
impl From<u32> for Gate {
    ghost from_gives = { λ number result. result ≡ gate_named number };

    fn from(number: u32) -> Gate {
        match number {
            0 => Gate::Load,
            1 => Gate::Not,
            2 => Gate::And,
            3 => Gate::Or,
            4 => Gate::LowRegister,
            5 => Gate::HighRegister,
            6 => Gate::NonZero,
            8 => Gate::Input,
            9 => Gate::Constant,
            10 => Gate::WordRegister,
            11 => Gate::Choice,
            12 => Gate::Copy,
            _ if number < 20 => Gate::Binary,
            _ => Gate::Unary,
        }
    }
}

// What one of a cell's three numbers is.
#[derive(Clone, Copy, Debug, PartialEq, Eq)]
pub enum Port {
    // No use: it is 0.
    Unused,
    // The number of an input word.
    Input,
    // A constant word.
    Constant,
    // A bit or a word of a lower wire.
    Bit,
    Word,
    // A bit or a word of any wire, as a register reads it.
    LaterBit,
    LaterWord,
}

// The compiler's answer: how many cells, input words and output words, the done wire, and the
// output wires, those past their count 0.
#[derive(Clone, Copy, Debug, PartialEq, Eq)]
pub struct Compiled {
    pub cells: u32,
    pub ins: u32,
    pub outs: u32,
    pub done: u32,
    pub wires: [u32; 16],
}
