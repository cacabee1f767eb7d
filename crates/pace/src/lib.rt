// For the benchmark alone: a netlist that is judged once and stepped many times, as a function on
// numbers in the manner of the plugin's, which `pace_c` hands to C.
// docs/READING.md: "The simulator".
#![tactic(auto)]

ghost use Rattle.std.specs.Prelude.{◌≡◌, length};
ghost use Rattle.meaning.specs.Choices.{bit};
ghost use Rattle.meaning.specs.Answers.{judged};
ghost use Rattle.circuit.specs.Cells.{cell_count};
ghost use Rattle.circuit.specs.Simulated.{step_verdict};
ghost use Rattle.cycles.specs.Ready.{Ready};
ghost use Rattle.pace.specs.Pairs.{evens, odds, even_after, odd_after};

// A step from `even` into `odd` and one back, `pairs` times.
#[tactic(auto, unfolding(crate::specs::Pairs::evens, crate::specs::Pairs::odds))]
fn alternate(
    width: u32,
    netlist: &[u32],
    even: &mut [u32],
    odd: &mut [u32],
    load: bool,
    words: &[u32],
    pairs: u32,
)
    requires { (Ready width netlist.now (length words.now) (length odd.old))
        × (length even.old ≡ cell_count netlist.now) }
    ensures even_after { even.new ≡ evens width netlist.now load
        words.now even.old pairs }
    ensures odd_after { odd.new ≡ odds width netlist.now load
        words.now even.old odd.old pairs }
{
    for _ in 0..pairs {
        cycles::next(width, netlist, even, load, words, odd);
        cycles::next(width, netlist, odd, load, words, even);
    }
}

// Judges once, with `even` as the wires of the cycle before and `odd` as the room for the next,
// and then steps `pairs` times from `even` into `odd` and back. Answers: refusal number, place.
#[tactic(auto, unfolding(crate::specs::Pairs::even_after, crate::specs::Pairs::odd_after))]
pub fn rumiotka_pace(
    width: u32,
    netlist: &[u32],
    even: &mut [u32],
    odd: &mut [u32],
    load: u32,
    words: &[u32],
    pairs: u32,
    answer: &mut [u32; 2],
)
    ensures answer_after { answer.new ≡ judged (step_verdict width netlist.now
        even.old words.now (length odd.old)) }
    ensures even_after { even.new ≡ even_after width netlist.now (bit load)
        words.now even.old odd.old pairs }
    ensures odd_after { odd.new ≡ odd_after width netlist.now (bit load)
        words.now even.old odd.old pairs }
{
    match simulator::verdicts::step(width, netlist, even, words, odd.len()) {
        Ok(()) => {
            alternate(width, netlist, even, odd, load != 0, words, pairs);
            *answer = [0, 0];
        }
        Err(refusal) => *answer = [refusal.cause.number(), refusal.place],
    }
}
