// What a term without operands does to the words, and what Par makes of its two sides.
// docs/READING.md: "Term tables", "Cycles".
#![tactic(auto)]

ghost use Rattle.std.specs.Prelude.{◌≡◌, ◌<◌, ◌≤◌};
ghost use Rattle.meaning.specs.Cycles.{leaf_word, leaf_run};
ghost use Rattle.leaves.specs.Results.{run_from, Leaves, side_by_side};

use meaning::Kind;
use words::Width;

// The word of a leaf: a Const's own, the one that a Field names, or an operation's.
fn word(width: Width, kind: u32, b: u32, x: &[u32; 16]) -> u32
    requires { kind < 13 → (kind ≡ 9 → ⊥) → b < 16 }
    ensures { result ≡ leaf_word width.bits kind b x.now }
{
    match Kind::from(kind) {
        Kind::Const => b,
        Kind::Binary | Kind::Unary => width.operate(kind, x[0], x[1]),
        _ => x[b as usize],
    }
}

// A leaf takes one cycle, if there is one left, and leaves its one word.
pub fn leaf(
    width: Width,
    kind: u32,
    b: u32,
    words: &mut [u32; 16],
    start: u32,
    limit: u32,
) -> Option<u32>
    requires { (kind < 13 → (kind ≡ 9 → ⊥) → b < 16) × (start ≤ limit) }
    ensures { Leaves (run_from (leaf_run (leaf_word width.bits kind b)) start limit words.old) result words.new }
{
    if start == limit {
        return None;
    }
    let first = word(width, kind, b, words);
    *words = [0; 16];
    words[0] = first;
    Some(start + 1)
}

// The words of the other side, after the first n.
pub fn join(words: &mut [u32; 16], n: usize, others: &[u32; 16])
    requires { n ≤ 16 }
    ensures { words.new ≡ side_by_side words.old n others.now }
{
    words[n..].copy_from_slice(&others[..16 - n]);
}
