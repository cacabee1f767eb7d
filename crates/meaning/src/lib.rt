// The values that the parts share: why a call is refused, what a kind makes of a term, what is
// known of a term, and the evaluator's answer. The definitions are in `specs/`, the laws about them
// in `proofs/`; `specs/Answers.antt` gives each answer's numbers.
#![tactic(auto)]

ghost use Rattle.std.specs.Prelude.{◌≡◌};
ghost use Rattle.meaning.specs.Refusals.{cause_number, refusal};
ghost use Rattle.meaning.specs.Kinds.{kind_named};

// Why a call is refused, with the number of the refusal. docs/READING.md: "Refusal numbers".
#[derive(Clone, Copy, Debug, PartialEq, Eq)]
pub enum Cause {
    Width = 1,
    TableLength = 2,
    TermKind = 3,
    UnusedNumber = 4,
    TermValue = 5,
    Operand = 6,
    WordCounts = 7,
    ParOutputs = 8,
    CircuitSize = 9,
    NetlistRoom = 10,
    InputWords = 11,
    NetlistLength = 12,
    CellKind = 13,
    CellNumber = 14,
    CellWire = 15,
    WireSort = 16,
    WireRoom = 17,
    WireValue = 18,
    Ports = 19,
    TextRoom = 20,
}

impl Cause {
    // The number of a cause.
    pub fn number(self) -> u32
        ensures { result ≡ cause_number self }
    {
        self as u32
    }
}

// A refusal: its cause, and the term, cell or wire that it names, or 0.
#[derive(Clone, Copy, Debug, PartialEq, Eq)]
pub struct Refusal {
    pub cause: Cause,
    pub place: u32,
}

// A cause that names no place.
impl From<Cause> for Refusal {
    ghost from_gives = { λ cause result. result ≡ refusal cause 0 };

    fn from(cause: Cause) -> Refusal {
        Refusal { cause, place: 0 }
    }
}

// What a term of a kind does: one of the four combinators, or a leaf, which gives a constant, one
// of its words, or an operation on two words or one.
#[derive(Clone, Copy, Debug, PartialEq, Eq)]
pub enum Kind {
    Seq,
    Par,
    Ite,
    Rec,
    Const,
    Field,
    Binary,
    Unary,
}

// Every number names one, the kinds that a table may not have too; refusal 3 judges those.
impl From<u32> for Kind {
    ghost from_gives = { λ number result. result ≡ kind_named number };

    fn from(number: u32) -> Kind {
        match number {
            1 => Kind::Seq,
            2 => Kind::Par,
            3 => Kind::Ite,
            4 => Kind::Rec,
            9 => Kind::Const,
            _ if number < 13 => Kind::Field,
            _ if number < 20 => Kind::Binary,
            _ => Kind::Unary,
        }
    }
}

// What is known of a term: its words in and out, and its cells up to a cap.
#[derive(Clone, Copy, Debug, PartialEq, Eq)]
pub struct Known {
    pub ins: u32,
    pub outs: u32,
    pub cells: u32,
}

// What the main term gives: so many output words, in so many cycles; the words past them are 0.
#[derive(Clone, Copy, Debug, PartialEq, Eq)]
pub struct Answer {
    pub outs: u32,
    pub cycles: u32,
    pub words: [u32; 16],
}
