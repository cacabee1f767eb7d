// The kinds of cells: which drive bits, which words, and what their three numbers are for.
// docs/READING.md: "Cells".
ghost use Rattle.std.specs.Prelude.{◌≡◌};
ghost use Rattle.meaning.specs.Choices.{or};
ghost use Rattle.circuit.specs.Cells.{bit_kind, word_kind, ports_of};

use circuit::{Gate, Port};

// A kind's three numbers, each as what it is.
#[derive(Clone, Copy, Debug, PartialEq, Eq)]
pub struct Ports {
    pub x: Port,
    pub y: Port,
    pub z: Port,
}

impl Ports {
    // Three numbers, each as what it is.
    fn new(x: Port, y: Port, z: Port) -> Ports
        ensures { (result.x ≡ x) × (result.y ≡ y) × (result.z ≡ z) }
    {
        Ports { x, y, z }
    }
}

// Whether cells of a kind drive bits.
pub fn drives_bit(kind: u32) -> bool
    ensures { result ≡ bit_kind kind }
{
    kind <= 6
}

// Whether cells of a kind drive words.
pub fn drives_word(kind: u32) -> bool
    ensures { result ≡ word_kind kind }
{
    (8..=22).contains(&kind)
}

// Whether there is such a kind.
pub fn known(kind: u32) -> bool
    ensures { result ≡ or (bit_kind kind) (word_kind kind) }
{
    drives_bit(kind) || drives_word(kind)
}

// The ports of a kind.
#[tactic(auto, unfolding(circuit::specs::Cells::ports_of))]
pub fn ports_of(kind: u32) -> Ports
    ensures { (result.x ≡ (ports_of kind).x) × (result.y ≡ (ports_of kind).y)
        × (result.z ≡ (ports_of kind).z) }
{
    match Gate::from(kind) {
        Gate::Load => Ports::new(Port::Unused, Port::Unused, Port::Unused),
        Gate::Not => Ports::new(Port::Bit, Port::Unused, Port::Unused),
        Gate::And | Gate::Or => Ports::new(Port::Bit, Port::Bit, Port::Unused),
        Gate::LowRegister | Gate::HighRegister => {
            Ports::new(Port::LaterBit, Port::Unused, Port::Unused)
        }
        Gate::Input => Ports::new(Port::Input, Port::Unused, Port::Unused),
        Gate::Constant => Ports::new(Port::Constant, Port::Unused, Port::Unused),
        Gate::WordRegister => Ports::new(Port::LaterWord, Port::Unused, Port::Unused),
        Gate::Choice => Ports::new(Port::Bit, Port::Word, Port::Word),
        Gate::Binary => Ports::new(Port::Word, Port::Word, Port::Unused),
        Gate::NonZero | Gate::Copy | Gate::Unary => {
            Ports::new(Port::Word, Port::Unused, Port::Unused)
        }
    }
}
