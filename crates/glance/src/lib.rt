// One look at each cell of a step: yes only where all that the call is lent passes every check. A
// step that gets a yes needs no other judgement; of any other, `simulator::verdicts` says whether
// it is refused, and how. docs/READING.md: "The simulator", "Refusal numbers".
#![tactic(auto)]

mod rows;

ghost use Rattle.std.specs.Prelude.{◌≡◌, true, ◌≤◌, ◌<◌, length};
ghost use Rattle.meaning.specs.Refusals.{passed};
ghost use Rattle.circuit.specs.Cells.{cell_count};
ghost use Rattle.circuit.specs.Simulated.{step_verdict};
ghost use Rattle.glance.specs.Sound.{AllSound};

use rows::Look;
use words::Width;

// Whether every cell and its wire of the cycle before passes.
fn all_sound(width: Width, netlist: &[u32], given: usize, wires: &[u32]) -> bool
    requires { (given ≤ 16) × (length wires.now ≡ cell_count netlist.now) }
    ensures { result ≡ true → AllSound width.bits netlist.now given
        wires.now (cell_count netlist.now) }
{
    let look = Look {
        width,
        netlist,
        given,
    };
    wires
        .iter()
        .enumerate()
        .all(|(n, &shown)| look.sound(n, shown))
}

// Yes only where a step is accepted; no says nothing, and the checks in order decide.
#[tactic(auto, using(crate::proofs::Accepting::accepted))]
pub fn step(width: u32, netlist: &[u32], before: &[u32], words: &[u32], room: usize) -> bool
    ensures { result ≡ true → step_verdict width netlist.now before.now
        words.now room ≡ passed }
{
    let Ok(width) = Width::try_from(width) else {
        return false;
    };
    let count = cells::count(netlist);
    let given = words.len();
    cells::netlist_fits(netlist)
        && before.len() == count
        && room == count
        && given <= 16
        && width.all_fit(words)
        && all_sound(width, netlist, given, before)
}
