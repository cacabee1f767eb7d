// The plugin's interface: each part as a function on numbers, which `plugin_c` hands to C. Every
// call is taken as it comes: a function writes its answer, refusals included, and what its part
// writes. docs/READING.md: "Refusal numbers".
#![tactic(auto)]

mod numbers;

ghost use Rattle.std.specs.Prelude.{◌≡◌, length};
ghost use Rattle.meaning.specs.Choices.{bit};
ghost use Rattle.meaning.specs.Answers.{judged, evaluated_of, evaluated_numbers};
ghost use Rattle.circuit.specs.Compiling.{compiled_of, compiled_numbers, netlist_after};
ghost use Rattle.circuit.specs.Simulated.{power_up_verdict, wires_at_start, step_verdict, wires_after};
ghost use Rattle.verilog.specs.Writing.{written_of, written_numbers, text_after};

// Evaluates a table on words. Answers: refusal number, place, 1 if ended else 0, cycles, o, and
// 16 words.
pub fn rumiotka_evaluate(
    width: u32,
    table: &[u32],
    words: &[u32],
    budget: u32,
    answer: &mut [u32; 21],
)
    ensures { answer.new ≡ evaluated_numbers
        (evaluated_of width table.now words.now budget) }
{
    *answer = numbers::evaluated_numbers(evaluator::evaluate(width, table, words, budget));
}

// Compiles a table into `netlist`. Answers: refusal number, place, cells, i, o, the done wire, and
// 16 output wires.
pub fn rumiotka_compile(width: u32, table: &[u32], netlist: &mut [u32], answer: &mut [u32; 22])
    ensures answer_after { answer.new ≡ compiled_numbers
        (compiled_of width table.now (length netlist.old)) }
    ensures netlist_after { netlist.new ≡
        netlist_after width table.now netlist.old }
{
    *answer = numbers::compiled_numbers(compiler::compile(width, table, netlist));
}

// Writes all wires of a netlist's cycle 0 into `wires`. Answers: refusal number, place.
pub fn rumiotka_power_up(
    width: u32,
    netlist: &[u32],
    load: u32,
    words: &[u32],
    wires: &mut [u32],
    answer: &mut [u32; 2],
)
    ensures answer_after { answer.new ≡ judged (power_up_verdict width netlist.now
        words.now (length wires.old)) }
    ensures wires_after { wires.new ≡ wires_at_start width netlist.now (bit load)
        words.now wires.old }
{
    let high = numbers::raised(load);
    let verdict = simulator::power_up(width, netlist, high, words, wires);
    *answer = numbers::judged_numbers(verdict);
}

// Writes all wires of the cycle after `before` into `after`. Answers: refusal number, place.
pub fn rumiotka_step(
    width: u32,
    netlist: &[u32],
    before: &[u32],
    load: u32,
    words: &[u32],
    after: &mut [u32],
    answer: &mut [u32; 2],
)
    ensures answer_after { answer.new ≡ judged (step_verdict width netlist.now
        before.now words.now (length after.old)) }
    ensures after_after { after.new ≡ wires_after width netlist.now
        before.now (bit load) words.now after.old }
{
    let high = numbers::raised(load);
    let verdict = simulator::step(width, netlist, before, high, words, after);
    *answer = numbers::judged_numbers(verdict);
}

// Writes a netlist as Verilog into `text`. Answers: refusal number, place, the text's length.
pub fn rumiotka_write(
    width: u32,
    netlist: &[u32],
    i: u32,
    o: u32,
    done: u32,
    outs: &[u32; 16],
    text: &mut [u8],
    answer: &mut [u32; 3],
)
    ensures answer_after { answer.new ≡ written_numbers (written_of width netlist.now
        i o done outs.now (length text.old)) }
    ensures text_after { text.new ≡ text_after width netlist.now
        i o done outs.now text.old }
{
    *answer = numbers::written_numbers(verilog::write(width, netlist, i, o, done, outs, text));
}
