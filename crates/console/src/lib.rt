// What the program prints: for a list of numbers, a width and a table, the Verilog text of the
// table's circuit; for anything else, one line. docs/READING.md: "The Verilog text".
#![tactic(auto)]

mod messages;

ghost use Rattle.std.specs.Prelude.{◌≡◌, ◌≤◌, MatchResult};
ghost use Rattle.spelling.specs.Pieces.{Wrote};
ghost use Rattle.console.specs.Messages.{refused_line};
ghost use Rattle.console.specs.Response.{printed, response_to};

use meaning::Refusal;

// Writes the text of a table's circuit, and answers its length; a refusal leaves the buffer as it
// was.
#[tactic(auto, using(crate::proofs::Printing::compiling))]
fn print(width: u32, table: &[u32], text: &mut [u8; 65536]) -> Result<usize, Refusal>
    ensures { MatchResult result
        (λ length. Wrote text.old 0 (printed width table.now) length text.new × (length ≤ 65536))
        (λ refusal. (printed width table.now ≡ refused_line refusal) × (text.new ≡ text.old)) }
{
    let mut cells = [0; 2400];
    let circuit = compiler::compile(width, table, &mut cells)?;
    let length = verilog::write(
        width,
        &cells[..circuit.cells as usize * 4],
        circuit.ins,
        circuit.outs,
        circuit.done,
        &circuit.wires,
        text,
    )?;
    Ok(length as usize)
}

// Writes what is printed for the bytes read, and answers its length.
#[tactic(auto, using(crate::proofs::Listing::listing))]
pub fn respond(input: &[u8], text: &mut [u8; 65536]) -> usize
    ensures wrote { Wrote text.old 0 (response_to input.now) result text.new }
    ensures upper_bound { result ≤ 65536 }
{
    let Some(list) = numbers::read(input) else {
        return messages::no_list(text);
    };
    match print(list.numbers[0], &list.numbers[1..list.count as usize], text) {
        Ok(length) => length,
        Err(refusal) => messages::refusal(text, refusal),
    }
}
