// Lists of decimal numbers read from text. What is no such list gives nothing.
// docs/READING.md: "The Verilog text".
#![tactic(auto)]

ghost use Rattle.std.specs.Prelude.{
  ◌≡◌,
  List,
  ℕ,
  ◌+◌,
  ◌^◌,
  ◌≤◌,
  ◌<◌,
  length,
  SomeIff,
  MatchOption,
};
ghost use Rattle.numbers.specs.Lists.{progress, closed, grown as grown_by, listed_in, Holds};

// The longest text, and the most numbers.
const MOST_BYTES: usize = 16384;

const MOST_NUMBERS: u32 = 1025;

// The numbers read, those past their count 0.
#[derive(Clone, Copy, Debug, PartialEq, Eq)]
pub struct Listed {
    pub count: u32,
    pub numbers: [u32; 1025],
}

impl Listed {
    // Adds the number that ends, if one does, where there is room for it.
    fn close(&mut self, current: Option<u32>) -> Option<()>
        ensures { (ns : List ℕ) → Holds ns self.old →
            (let all = closed (progress ns current) in
            MatchOption result (1025 < length all) (λ _. Holds all self.new)) }
    {
        if let Some(number) = current {
            if MOST_NUMBERS <= self.count {
                return None;
            }
            self.numbers[self.count as usize] = number;
            self.count += 1;
        }
        Some(())
    }
}

// The number that is being read, with one digit more, where 32 bits hold it.
fn grown(current: Option<u32>, byte: u8) -> Option<u32>
    requires { 48 ≤ byte }
    ensures { SomeIff result (grown_by current byte < 2 ^ 32) (grown_by current byte) }
{
    let tens = current.unwrap_or(0).checked_mul(10)?;
    tens.checked_add(u32::from(byte - b'0'))
}

// Reads the numbers of a text.
pub fn read(bytes: &[u8]) -> Option<Listed>
    ensures { result ≡ listed_in bytes.now }
{
    if MOST_BYTES < bytes.len() {
        return None;
    }
    let mut listed = Listed {
        count: 0,
        numbers: [0; 1025],
    };
    let mut current = None;
    for &byte in bytes {
        match byte {
            b'0'..=b'9' => current = Some(grown(current, byte)?),
            b' ' | b'\n' => listed.close(current.take())?,
            _ => return None,
        }
    }
    listed.close(current)?;
    if listed.count == 0 {
        None
    } else {
        Some(listed)
    }
}
