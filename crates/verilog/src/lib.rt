// A netlist as Verilog text in lent memory.
// docs/READING.md: "The Verilog text".
#![tactic(auto)]

mod lines;
mod templates;

ghost use Rattle.std.specs.Prelude.{◌≡◌, length};
ghost use Rattle.verilog.specs.Writing.{written_of, text_after};

use lines::Design;
use meaning::{Cause, Refusal};

// Writes the text of a netlist with these ports, and answers its length, which is counted before
// the first byte is written.
#[tactic(auto, unfolding(crate::specs::Writing::write_verdict), using(crate::proofs::Buffer::laws))]
pub fn write(
    width: u32,
    netlist: &[u32],
    i: u32,
    o: u32,
    done: u32,
    outs: &[u32; 16],
    text: &mut [u8],
) -> Result<u32, Refusal>
    ensures value { result ≡ written_of width netlist.now i o done outs.now (length text.old) }
    ensures text_after { text.new ≡ text_after width netlist.now i o done outs.now text.old }
{
    cells::check(width, netlist)?;
    if !ports::fit(netlist, i, o, done, outs) {
        return Err(Cause::Ports.into());
    }
    let design = Design {
        width,
        netlist,
        i,
        o,
        done,
        outs,
    };
    let length = design.whole(&mut []);
    if text.len() < length {
        return Err(Cause::TextRoom.into());
    }
    design.whole(text);
    Ok(length as u32)
}
