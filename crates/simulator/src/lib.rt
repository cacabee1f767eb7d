// A simulator of netlists, a cycle a call. A call judges all that it is lent before it writes the
// first wire: a refused call writes nothing. docs/READING.md: "The simulator", "Refusal numbers".
//
//     power_up   the wires of cycle 0
//     step       the wires of a cycle from those of the cycle before
//     verdicts   the refusals of both: the netlist's, then 17, 18 and 11
//
// The crate `cycles` computes the wires; a caller that has checked once may step by it many times.
#![tactic(auto)]

pub mod verdicts;

ghost use Rattle.std.specs.Prelude.{◌≡◌, length};
ghost use Rattle.circuit.specs.Simulated.{power_up_verdict, step_verdict, wires_at_start, wires_after};

use meaning::Refusal;

// Cycle 0 from power-up, where load and done count as high before it. Word registers start 0.
#[tactic(auto, unfolding(circuit::specs::Simulated::wires_at_start))]
pub fn power_up(
    width: u32,
    netlist: &[u32],
    load: bool,
    words: &[u32],
    wires: &mut [u32],
) -> Result<(), Refusal>
    ensures { (result ≡ power_up_verdict width netlist.now words.now
        (length wires.old)) × (wires.new ≡ wires_at_start width
        netlist.now load words.now wires.old) }
{
    verdicts::power_up(width, netlist, words, wires.len())?;
    cycles::first(width, netlist, load, words, wires);
    Ok(())
}

// A cycle from all wires of the cycle before, which are taken as they are.
#[tactic(auto, unfolding(circuit::specs::Simulated::wires_after))]
pub fn step(
    width: u32,
    netlist: &[u32],
    before: &[u32],
    load: bool,
    words: &[u32],
    after: &mut [u32],
) -> Result<(), Refusal>
    ensures { (result ≡ step_verdict width netlist.now before.now
        words.now (length after.old)) × (after.new ≡ wires_after width
        netlist.now before.now load words.now
        after.old) }
{
    verdicts::step(width, netlist, before, words, after.len())?;
    cycles::next(width, netlist, before, load, words, after);
    Ok(())
}
