// Refusal 19: whether the ports that a caller names fit a netlist that passes its checks.
#![tactic(auto)]

ghost use Rattle.std.specs.Prelude.{◌≡◌, Bool, Some, None, ltb, eqb};
ghost use Rattle.meaning.specs.Choices.{pick};
ghost use Rattle.circuit.specs.Cells.{kind_at, cell_count, word_kind};
ghost use Rattle.ports.specs.Interface.{outputs_fit, ports_fit};

use cells::kinds;

// The kind of the cell that drives a wire, where the wire is there.
fn driver(netlist: &[u32], wire: u32) -> Option<u32>
    ensures { result ≡ pick (ltb wire (cell_count netlist.now)) (Some (kind_at netlist.now wire)) None }
{
    let n = wire as usize;
    (n < cells::count(netlist)).then(|| cells::kind(netlist, n))
}

// Whether each of the 16 outputs fits: a word wire, or 0 past o.
fn outputs_fit(netlist: &[u32], o: u32, outs: &[u32; 16]) -> bool
    ensures { result ≡ outputs_fit netlist.now o outs.now 16 }
{
    outs.iter().enumerate().all(|(n, &wire)| {
        if n < o as usize {
            driver(netlist, wire).is_some_and(kinds::drives_word)
        } else {
            wire == 0
        }
    })
}

// Whether all ports fit.
#[tactic(auto, unfolding(crate::specs::Interface::ports_fit))]
pub fn fit(netlist: &[u32], i: u32, o: u32, done: u32, outs: &[u32; 16]) -> bool
    ensures { result ≡ ports_fit netlist.now i o done outs.now }
{
    words::few_words(i)
        && words::few_words(o)
        && cells::names_given(netlist, i as usize)
        && driver(netlist, done).is_some_and(kinds::drives_bit)
        && outputs_fit(netlist, o, outs)
}
