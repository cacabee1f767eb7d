// The wires of a cycle of a checked netlist, lowest first. A cell reads lower wires of the same
// cycle; a register shows its starting value in cycle 0, and afterwards its wire of the cycle
// before. Nothing is judged here. One loop serves power-up and step, so that the compiler folds
// all of it into one jump on the kind a cell. docs/READING.md: "The simulator".
#![tactic(auto)]

ghost use Rattle.std.specs.Prelude.{◌≡◌, true, [], ◌<◌, length, take};
ghost use Rattle.meaning.specs.Choices.{«bit», at};
ghost use Rattle.meaning.specs.Refusals.{passed};
ghost use Rattle.circuit.specs.Cells.{cell_number, cell_count, cell_at, cells_of, value};
ghost use Rattle.circuit.specs.Netlists.{netlist_verdict};
ghost use Rattle.circuit.specs.Simulated.{inputs_given};
ghost use Rattle.circuit.specs.Clock.{pass, power_up, step};
ghost use Rattle.cycles.specs.Ready.{Ready, Past, register_shows, held_by};
ghost use Rattle.cycles.specs.Reads.{Reads, Lower, lower_wire};

use circuit::Gate;
use words::Width;

// What a cycle's wires depend on: a checked netlist and its width, load, the input words, and the
// wires of the cycle before, where there is one. Where there is none, registers of words show
// `start`.
#[derive(Clone, Copy)]
struct Cycle<'a> {
    width: Width,
    netlist: &'a [u32],
    before: Option<&'a [u32]>,
    start: u32,
    load: bool,
    words: &'a [u32],
    ghost checked: { netlist_verdict width.bits netlist.now ≡ passed },
    ghost named: { inputs_given netlist.now (length words.now) (cell_count netlist.now) ≡ true },
    ghost past: { Past before netlist.now },
}

impl Cycle<'_> {
    // The gate of cell n.
    fn gate(&self, n: usize) -> Gate
        requires { n < cell_count self.now.netlist.now }
        ensures { Reads (length self.now.words.now) (cell_count self.now.netlist.now) n
            (cell_at self.now.netlist.now n) result }
    {
        Gate::from(cells::kind(self.netlist, n))
    }

    // The lower wire that number j of cell n names.
    fn lower(&self, n: usize, j: usize, wires: &[u32]) -> u32
        requires { Lower self.now.netlist.now n j (length wires.now) }
        ensures { result ≡ lower_wire self.now.netlist.now n j wires.now }
    {
        wires[cells::number(self.netlist, n, j) as usize]
    }

    // Whether that wire is high; a word, whether it is not zero.
    fn high(&self, n: usize, j: usize, wires: &[u32]) -> bool
        requires { Lower self.now.netlist.now n j (length wires.now) }
        ensures { result ≡ «bit» (lower_wire self.now.netlist.now n j wires.now) }
    {
        self.lower(n, j, wires) != 0
    }

    // What a register at cell n shows: `start`, or its wire of the cycle before.
    fn register(&self, n: usize, start: u32) -> u32
        requires { (n < cell_count self.now.netlist.now)
            × (cell_number self.now.netlist.now n 1 < cell_count self.now.netlist.now) }
        ensures { result ≡ register_shows self.now.before start
            (cell_number self.now.netlist.now n 1) }
    {
        match self.before {
            None => start,
            Some(before) => before[cells::number(self.netlist, n, 1) as usize],
        }
    }

    // What cell n shows, the wires below it being there.
    fn shows(&self, n: usize, wires: &[u32]) -> u32
        requires { (n < cell_count self.now.netlist.now)
            × (length wires.now ≡ cell_count self.now.netlist.now) }
        ensures { result ≡ value self.now.width.bits self.now.load self.now.words.now
            (held_by self.now.before self.now.start n) (at (take n wires.now))
            (cell_at self.now.netlist.now n) }
    {
        match self.gate(n) {
            Gate::Load => u32::from(self.load),
            Gate::Not => u32::from(!self.high(n, 1, wires)),
            Gate::And => u32::from(self.high(n, 1, wires) & self.high(n, 2, wires)),
            Gate::Or => u32::from(self.high(n, 1, wires) | self.high(n, 2, wires)),
            Gate::LowRegister => self.register(n, 0),
            Gate::HighRegister => self.register(n, 1),
            Gate::NonZero => u32::from(self.high(n, 1, wires)),
            Gate::Input => self.words[cells::number(self.netlist, n, 1) as usize],
            Gate::Constant => cells::number(self.netlist, n, 1),
            Gate::WordRegister => self.register(n, self.start),
            Gate::Choice => {
                let (yes, no) = (self.lower(n, 2, wires), self.lower(n, 3, wires));
                if self.high(n, 1, wires) { yes } else { no }
            }
            Gate::Copy => self.lower(n, 1, wires),
            Gate::Binary | Gate::Unary => self.width.operate(
                cells::kind(self.netlist, n),
                self.lower(n, 1, wires),
                self.lower(n, 2, wires),
            ),
        }
    }

    // Writes all wires.
    #[tactic(auto, using(crate::proofs::Passing::passing_on))]
    fn fill(&self, wires: &mut [u32])
        requires { length wires.old ≡ cell_count self.now.netlist.now }
        ensures { wires.new ≡ pass self.now.width.bits self.now.load self.now.words.now
            (held_by self.now.before self.now.start) [] (cells_of self.now.netlist.now) }
    {
        for n in 0..cells::count(self.netlist) {
            wires[n] = self.shows(n, wires);
        }
    }
}

// All wires of cycle 0.
#[tactic(auto, using(crate::proofs::Reading::narrow))]
pub fn first<'a>(width: u32, netlist: &'a [u32], load: bool, words: &'a [u32], wires: &mut [u32])
    requires { Ready width netlist.now (length words.now) (length wires.old) }
    ensures { wires.new ≡ power_up width (λ n. 0) netlist.now load
        words.now }
{
    let start = 0;
    Cycle {
        width: Width { bits: width },
        netlist,
        before: None,
        start,
        load,
        words,
    }
    .fill(wires);
}

// All wires of a cycle from those of the cycle before.
#[tactic(auto, using(crate::proofs::Reading::narrow))]
pub fn next<'a>(
    width: u32,
    netlist: &'a [u32],
    before: &'a [u32],
    load: bool,
    words: &'a [u32],
    after: &mut [u32],
)
    requires { (Ready width netlist.now (length words.now) (length after.old))
        × (length before.now ≡ cell_count netlist.now) }
    ensures { after.new ≡ step width netlist.now before.now
        load words.now }
{
    Cycle {
        width: Width { bits: width },
        netlist,
        before: Some(before),
        start: 0,
        load,
        words,
    }
    .fill(after);
}
