// `pace` for C: its function under the name and with the clauses that it has there.
#![tactic(auto)]

ghost use Rattle.std.specs.Prelude.{◌≡◌, length};
ghost use Rattle.meaning.specs.Choices.{bit};
ghost use Rattle.meaning.specs.Answers.{judged};
ghost use Rattle.circuit.specs.Simulated.{step_verdict};
ghost use Rattle.pace.specs.Pairs.{even_after, odd_after};

// Judges once, with `even` as the wires of the cycle before and `odd` as the room for the next,
// and then steps `pairs` times from `even` into `odd` and back.
#[unsafe(no_mangle)]
pub extern "C" fn rumiotka_pace(
    width: u32,
    netlist: &[u32],
    even: &mut [u32],
    odd: &mut [u32],
    load: u32,
    words: &[u32],
    pairs: u32,
    answer: &mut [u32; 2],
)
    ensures answer_after { answer.new ≡ judged (step_verdict width netlist.now
        even.old words.now (length odd.old)) }
    ensures even_after { even.new ≡ even_after width netlist.now (bit load)
        words.now even.old odd.old pairs }
    ensures odd_after { odd.new ≡ odd_after width netlist.now (bit load)
        words.now even.old odd.old pairs }
{
    pace::rumiotka_pace(width, netlist, even, odd, load, words, pairs, answer);
}
