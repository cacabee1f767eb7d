// The refusals 7 and 8 of a term, and what it gives, from what is known of its operands.
// docs/READING.md: "Term tables", "Cells".
// Sizes are kept up to 4,097, so that a sum of three of them is small whatever the table.
#![tactic(auto)]

ghost use Rattle.std.specs.Prelude.{◌≡◌};
ghost use Rattle.meaning.specs.Terms.{«leaf»};
ghost use Rattle.meaning.specs.Answers.{known_of};
ghost use Rattle.shapes.specs.Shapes.{
  Small,
  test_passes,
  seq_shape,
  par_shape,
  ite_shape,
  rec_shape,
};

use meaning::{Cause, Kind, Known};

// The cap of a sum of cells.
const CAP: u32 = 4097;

// Seq: g takes what f gives.
#[tactic(auto, unfolding(crate::specs::Shapes::seq_shape))]
pub fn seq(f: Known, g: Known) -> Result<Known, Cause>
    requires { (Small f) × (Small g) }
    ensures { result ≡ seq_shape f g }
{
    if f.outs != g.ins {
        return Err(Cause::WordCounts);
    }
    Ok(Known {
        ins: f.ins,
        outs: g.outs,
        cells: (f.cells + g.cells + 4).min(CAP),
    })
}

// Par: both take the same and give at most 16 words.
#[tactic(auto, unfolding(crate::specs::Shapes::par_shape))]
pub fn par(f: Known, g: Known) -> Result<Known, Cause>
    requires { (Small f) × (Small g) }
    ensures { result ≡ par_shape f g }
{
    if f.ins != g.ins {
        return Err(Cause::WordCounts);
    }
    if f.outs + g.outs > 16 {
        return Err(Cause::ParOutputs);
    }
    Ok(Known {
        ins: f.ins,
        outs: f.outs + g.outs,
        cells: (f.cells + g.cells + 1).min(CAP),
    })
}

// Ite and Rec: all three take the same, and the test gives one word.
fn test_passes(e: Known, f: Known, g: Known) -> bool
    ensures { result ≡ test_passes e f g }
{
    e.ins == f.ins && e.ins == g.ins && e.outs == 1
}

// Ite: both branches give the same.
#[tactic(auto, unfolding(crate::specs::Shapes::ite_shape))]
pub fn ite(e: Known, f: Known, g: Known) -> Result<Known, Cause>
    requires { (Small e) × (Small f) × (Small g) }
    ensures { result ≡ ite_shape e f g }
{
    if !test_passes(e, f, g) || f.outs != g.outs {
        return Err(Cause::WordCounts);
    }
    Ok(Known {
        ins: e.ins,
        outs: f.outs,
        cells: (2 * e.ins + e.cells + f.cells + g.cells + 9 + f.outs).min(CAP),
    })
}

// Rec: g gives what the next round takes.
#[tactic(auto, unfolding(crate::specs::Shapes::rec_shape))]
pub fn rec(e: Known, f: Known, g: Known) -> Result<Known, Cause>
    requires { (Small e) × (Small f) × (Small g) }
    ensures { result ≡ rec_shape e f g }
{
    if !test_passes(e, f, g) || g.outs != e.ins {
        return Err(Cause::WordCounts);
    }
    Ok(Known {
        ins: e.ins,
        outs: f.outs,
        cells: (4 * e.ins + e.cells + f.cells + g.cells + 16).min(CAP),
    })
}

// A leaf takes what it says itself, or what its operation reads.
pub fn leaf(kind: u32, a: u32) -> Known
    ensures { result ≡ known_of («leaf» kind a 0) }
{
    let ins = match Kind::from(kind) {
        Kind::Binary => 2,
        Kind::Unary => 1,
        _ => a,
    };
    Known {
        ins,
        outs: 1,
        cells: 4,
    }
}
