// Words of 1 to 32 bits, held in u32: the operations 13 to 22, and which numbers are words.
// Every function takes every number: with an operand past the width it computes as defined.
// Sums and differences wrap at 32 bits and are then reduced to the width.
// docs/READING.md: "Term tables".
#![tactic(auto)]

ghost use Rattle.std.specs.Prelude.{◌≡◌, ◌-◌, ◌%◌, ◌^◌, ◌≤◌, true, false, nat_lt, MatchResult};
ghost use Rattle.meaning.specs.declared.Cause.TheVariants as cause;
ghost use Rattle.meaning.specs.Choices.{all_below};
ghost use Rattle.meaning.specs.Words.{
  sum,
  difference,
  complement,
  shift_left,
  operation,
};
ghost use Rattle.meaning.specs.Checks.{width_fits, few_words};
ghost use Rattle.words.specs.Operations.{operation_named};

use meaning::Cause;

// What operations there are: the kinds 13 to 19 read two words, the kinds 20 to 22 one.
#[derive(Clone, Copy, Debug, PartialEq, Eq)]
pub enum Operation {
    Add,
    Subtract,
    And,
    Or,
    Xor,
    Equal,
    Less,
    Complement,
    ShiftLeft,
    ShiftRight,
}

// Every number names one: Less below 20, and ShiftRight from 20 on, where nothing else is named.
impl From<u32> for Operation {
    ghost from_gives = { λ number result. result ≡ operation_named number };

    fn from(number: u32) -> Operation {
        match number {
            13 => Operation::Add,
            14 => Operation::Subtract,
            15 => Operation::And,
            16 => Operation::Or,
            17 => Operation::Xor,
            18 => Operation::Equal,
            20 => Operation::Complement,
            21 => Operation::ShiftLeft,
            _ if number < 20 => Operation::Less,
            _ => Operation::ShiftRight,
        }
    }
}

// Whether words may have this many bits: 1 to 32.
pub fn width_fits(width: u32) -> bool
    ensures { result ≡ width_fits width }
{
    (1..=32).contains(&width)
}

// Whether there are 1 to 16 words, as many as a term takes or gives.
pub fn few_words(n: u32) -> bool
    ensures { result ≡ few_words n }
{
    (1..=16).contains(&n)
}

// How many bits words have.
#[derive(Clone, Copy)]
pub struct Width {
    pub bits: u32,
    ghost narrow: { bits ≤ 32 },
}

// 1: a width of 1 to 32 bits.
impl TryFrom<u32> for Width {
    type Error = Cause;

    ghost try_from_gives = { λ bits result. MatchResult result
        (λ width. (width.bits ≡ bits) × (width_fits bits ≡ true))
        (λ error. (error ≡ cause.Width) × (width_fits bits ≡ false)) };

    fn try_from(bits: u32) -> Result<Width, Cause> {
        if width_fits(bits) {
            Ok(Width { bits })
        } else {
            Err(Cause::Width)
        }
    }
}

impl Width {
    // How many words there are: one past the largest.
    fn past(self) -> u64
        ensures { result ≡ 2 ^ self.bits }
    {
        1 << self.bits
    }

    // The largest word: all its bits.
    pub fn ones(self) -> u32
        ensures { result ≡ 2 ^ self.bits - 1 }
    {
        (self.past() - 1) as u32
    }

    // The low bits of a number, as many as the width has.
    #[tactic(auto, using(std::proofs::lemmas::Nat::and_mask))]
    fn reduced(self, x: u32) -> u32
        ensures { result ≡ x % 2 ^ self.bits }
    {
        x & self.ones()
    }

    // 13: the sum.
    #[tactic(auto, using(crate::proofs::Wrapping::reduce_wrapped))]
    fn add(self, x: u32, y: u32) -> u32
        ensures { result ≡ sum self.bits x y }
    {
        self.reduced(x.wrapping_add(y))
    }

    // 14: the difference.
    #[tactic(auto, using(crate::proofs::Wrapping::difference_reduced))]
    fn subtract(self, x: u32, y: u32) -> u32
        ensures { result ≡ difference self.bits x y }
    {
        self.reduced(x.wrapping_sub(y))
    }

    // 20: every bit of the width turned round.
    fn turned(self, x: u32) -> u32
        ensures { result ≡ complement self.bits x }
    {
        self.ones() - self.reduced(x)
    }

    // 21: one place up, the top bit lost.
    #[tactic(auto, using(crate::proofs::Wrapping::reduce_wrapped))]
    fn up(self, x: u32) -> u32
        ensures { result ≡ shift_left self.bits x }
    {
        self.reduced(x << 1)
    }

    // The operation of a kind on two words; from kind 20 on the second is not read.
    #[tactic(auto, unfolding(meaning::specs::Words::binary, meaning::specs::Words::unary))]
    pub fn operate(self, kind: u32, x: u32, y: u32) -> u32
        ensures { result ≡ operation self.bits kind x y }
    {
        match Operation::from(kind) {
            Operation::Add => self.add(x, y),
            Operation::Subtract => self.subtract(x, y),
            Operation::And => x & y,
            Operation::Or => x | y,
            Operation::Xor => x ^ y,
            Operation::Equal => u32::from(x == y),
            Operation::Less => u32::from(x < y),
            Operation::Complement => self.turned(x),
            Operation::ShiftLeft => self.up(x),
            Operation::ShiftRight => x >> 1,
        }
    }

    // Whether a number is a word.
    pub fn fits(self, x: u32) -> bool
        ensures { result ≡ nat_lt x (2 ^ self.bits) }
    {
        u64::from(x) < self.past()
    }

    // Whether every number is a word.
    pub fn all_fit(self, words: &[u32]) -> bool
        ensures { result ≡ all_below (2 ^ self.bits) words.now }
    {
        words.iter().all(|x| self.fits(*x))
    }
}
