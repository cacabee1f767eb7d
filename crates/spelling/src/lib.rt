// Pieces of text: a byte, a number, a template with its blanks filled in. Each is written from an
// index on as far as the buffer goes, and answers the index after it. So the same code counts a
// text where the buffer is short, and writes it where the buffer holds it. A writer of any format
// stands on these; none of them knows what a line means.
#![tactic(auto)]

ghost use Rattle.std.specs.Prelude.{◌≡◌, [], ◌∷◌, ◌+◌, ◌*◌, ◌^◌, ◌≤◌, ◌<◌, length};
ghost use Rattle.spelling.specs.Pieces.{
  digits,
  blanks as blanks_of,
  spelled,
  filled,
  Wrote,
};

// What the capitals N, X, Y, Z, W and T of a template stand for.
#[derive(Clone, Copy, Debug, PartialEq, Eq)]
pub struct Blanks {
    pub n: u32,
    pub x: u32,
    pub y: u32,
    pub z: u32,
    pub width: u32,
    pub top: u32,
}

// The blanks of a line that has a width and the numbers n and x alone.
pub fn blanks_of(width: u32, n: u32, x: u32) -> Blanks
    requires { 0 < width }
    ensures { result ≡ blanks_of width n x }
{
    Blanks {
        n,
        x,
        y: 0,
        z: 0,
        width,
        top: width - 1,
    }
}

// Writes one byte.
#[tactic(auto, using(crate::proofs::Placing::byte_in, crate::proofs::Placing::byte_out))]
pub fn put(text: &mut [u8], at: usize, byte: u8) -> usize
    requires { at < 2 ^ 40 }
    ensures { Wrote text.old at (byte ∷ []) result text.new }
{
    if at < text.len() {
        text[at] = byte;
    }
    at + 1
}

// Writes a number in decimal: the digits of its tenth, and then its last digit.
pub fn number(text: &mut [u8], at: usize, value: u32) -> usize
    requires { at + 16 < 2 ^ 40 }
    ensures wrote { Wrote text.old at (digits value) result text.new }
    ensures upper_bound { result ≤ at + 10 }
{
    if value < 10 {
        return put(text, at, digit(value));
    }
    let next = number(text, at, value / 10);
    put(text, next, digit(value % 10))
}

// The byte of a digit.
fn digit(value: u32) -> u8
    requires { value < 10 }
    ensures { result ≡ 48 + value }
{
    b'0' + value as u8
}

// Writes what a template's byte stands for.
#[tactic(auto, unfolding(crate::specs::Pieces::spelled))]
pub fn spell(text: &mut [u8], at: usize, byte: u8, blanks: Blanks) -> usize
    requires { at + 16 < 2 ^ 40 }
    ensures wrote { Wrote text.old at (spelled blanks byte) result text.new }
    ensures upper_bound { result ≤ at + 10 }
{
    match byte {
        b'N' => number(text, at, blanks.n),
        b'X' => number(text, at, blanks.x),
        b'Y' => number(text, at, blanks.y),
        b'Z' => number(text, at, blanks.z),
        b'W' => number(text, at, blanks.width),
        b'T' => number(text, at, blanks.top),
        _ => put(text, at, byte),
    }
}

// Writes a template with its blanks filled in.
pub fn fill(text: &mut [u8], at: usize, template: &[u8], blanks: Blanks) -> usize
    requires { (at < 2 ^ 32) × (length template.now ≤ 64) }
    ensures wrote { Wrote text.old at (filled blanks template.now) result text.new }
    ensures upper_bound { result ≤ at + 640 }
{
    let mut next = at;
    for &byte in template {
        next = spell(text, next, byte, blanks);
    }
    next
}
