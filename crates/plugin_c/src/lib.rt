// The plugin for C: its five functions under the names and with the clauses that they have in
// `plugin`, which says what numbers each answers. `include/rumiotka.h` declares them for a host.
#![tactic(auto)]

ghost use Rattle.std.specs.Prelude.{◌≡◌, length};
ghost use Rattle.meaning.specs.Choices.{bit};
ghost use Rattle.meaning.specs.Answers.{judged, evaluated_of, evaluated_numbers};
ghost use Rattle.circuit.specs.Compiling.{compiled_of, compiled_numbers, netlist_after};
ghost use Rattle.circuit.specs.Simulated.{power_up_verdict, wires_at_start, step_verdict, wires_after};
ghost use Rattle.verilog.specs.Writing.{written_of, written_numbers, text_after};

// Evaluates a table on words.
#[unsafe(no_mangle)]
pub extern "C" fn rumiotka_evaluate(
    width: u32,
    table: &[u32],
    words: &[u32],
    budget: u32,
    answer: &mut [u32; 21],
)
    ensures { answer.new ≡ evaluated_numbers
        (evaluated_of width table.now words.now budget) }
{
    plugin::rumiotka_evaluate(width, table, words, budget, answer);
}

// Compiles a table into `netlist`.
#[unsafe(no_mangle)]
pub extern "C" fn rumiotka_compile(
    width: u32,
    table: &[u32],
    netlist: &mut [u32],
    answer: &mut [u32; 22],
)
    ensures answer_after { answer.new ≡ compiled_numbers
        (compiled_of width table.now (length netlist.old)) }
    ensures netlist_after { netlist.new ≡
        netlist_after width table.now netlist.old }
{
    plugin::rumiotka_compile(width, table, netlist, answer);
}

// Writes all wires of a netlist's cycle 0 into `wires`.
#[unsafe(no_mangle)]
pub extern "C" fn rumiotka_power_up(
    width: u32,
    netlist: &[u32],
    load: u32,
    words: &[u32],
    wires: &mut [u32],
    answer: &mut [u32; 2],
)
    ensures answer_after { answer.new ≡ judged (power_up_verdict width netlist.now
        words.now (length wires.old)) }
    ensures wires_after { wires.new ≡ wires_at_start width netlist.now (bit load)
        words.now wires.old }
{
    plugin::rumiotka_power_up(width, netlist, load, words, wires, answer);
}

// Writes all wires of the cycle after `before` into `after`.
#[unsafe(no_mangle)]
pub extern "C" fn rumiotka_step(
    width: u32,
    netlist: &[u32],
    before: &[u32],
    load: u32,
    words: &[u32],
    after: &mut [u32],
    answer: &mut [u32; 2],
)
    ensures answer_after { answer.new ≡ judged (step_verdict width netlist.now
        before.now words.now (length after.old)) }
    ensures after_after { after.new ≡ wires_after width netlist.now
        before.now (bit load) words.now after.old }
{
    plugin::rumiotka_step(width, netlist, before, load, words, after, answer);
}

// Writes a netlist as Verilog into `text`.
#[unsafe(no_mangle)]
pub extern "C" fn rumiotka_write(
    width: u32,
    netlist: &[u32],
    i: u32,
    o: u32,
    done: u32,
    outs: &[u32; 16],
    text: &mut [u8],
    answer: &mut [u32; 3],
)
    ensures answer_after { answer.new ≡ written_numbers (written_of width netlist.now
        i o done outs.now (length text.old)) }
    ensures text_after { text.new ≡ text_after width netlist.now
        i o done outs.now text.old }
{
    plugin::rumiotka_write(width, netlist, i, o, done, outs, text, answer);
}
