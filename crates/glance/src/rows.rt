// One cell and its wire, by the row of its gate: what its wire shows, at most the largest bit or
// word, and then its numbers. docs/READING.md: "Cells", "Refusal numbers".
ghost use Rattle.std.specs.Prelude.{◌≡◌, true, ◌≤◌, ◌<◌};
ghost use Rattle.circuit.specs.Cells.{cell_count};
ghost use Rattle.glance.specs.Asked.{BitBelow, WordBelow, Row};
ghost use Rattle.glance.specs.Sound.{Sound};

use circuit::Gate;
use words::Width;

// What the cells of a step are looked at with: the width, the netlist, and how many words are
// given.
#[derive(Clone, Copy)]
pub struct Look<'a> {
    pub width: Width,
    pub netlist: &'a [u32],
    pub given: usize,
    ghost few: { given ≤ 16 },
}

impl Look<'_> {
    // Whether wire v is one of the first m, and drives a bit.
    fn bit(&self, m: usize, v: u32) -> bool
        requires { m ≤ cell_count self.now.netlist.now }
        ensures only_where { result ≡ true → BitBelow self.now.netlist.now m v }
        ensures wherever { BitBelow self.now.netlist.now m v → result ≡ true }
    {
        (v as usize) < m && cells::kind(self.netlist, v as usize) <= 6
    }

    // Whether wire v is one of the first m, and drives a word.
    fn word(&self, m: usize, v: u32) -> bool
        requires { m ≤ cell_count self.now.netlist.now }
        ensures only_where { result ≡ true → WordBelow self.now.netlist.now m v }
        ensures wherever { WordBelow self.now.netlist.now m v → result ≡ true }
    {
        (v as usize) < m && 8 <= cells::kind(self.netlist, v as usize)
    }

    // Whether cell n, with the numbers that it has, and what its wire shows meet the row of a gate.
    fn row(&self, gate: Gate, n: usize, cell: [u32; 4], shown: u32) -> bool
        requires { n < cell_count self.now.netlist.now }
        ensures only_where { result ≡ true → Row self.now.width.bits self.now.netlist.now
            self.now.given n shown cell gate }
        ensures wherever { Row self.now.width.bits self.now.netlist.now self.now.given n shown
            cell gate → result ≡ true }
    {
        let cells = cells::count(self.netlist);
        let most = self.width.ones();
        let [kind, x, y, z] = cell;
        match gate {
            Gate::Load => shown <= 1 && x == 0 && y == 0 && z == 0,
            Gate::Not => shown <= 1 && self.bit(n, x) && y == 0 && z == 0,
            Gate::And | Gate::Or => shown <= 1 && self.bit(n, x) && self.bit(n, y) && z == 0,
            Gate::LowRegister | Gate::HighRegister => {
                shown <= 1 && self.bit(cells, x) && y == 0 && z == 0
            }
            Gate::NonZero => shown <= 1 && self.word(n, x) && y == 0 && z == 0,
            Gate::Input => shown <= most && (x as usize) < self.given && y == 0 && z == 0,
            Gate::Constant => shown <= most && x <= most && y == 0 && z == 0,
            Gate::WordRegister => shown <= most && self.word(cells, x) && y == 0 && z == 0,
            Gate::Choice => {
                shown <= most && self.bit(n, x) && self.word(n, y) && self.word(n, z)
            }
            Gate::Copy => shown <= most && self.word(n, x) && y == 0 && z == 0,
            Gate::Binary => {
                13 <= kind && shown <= most && self.word(n, x) && self.word(n, y) && z == 0
            }
            Gate::Unary => kind <= 22 && shown <= most && self.word(n, x) && y == 0 && z == 0,
        }
    }

    // Whether cell n passes, where its wire shows `shown`. Its numbers are read before the one jump
    // on its gate.
    pub fn sound(&self, n: usize, shown: u32) -> bool
        requires { n < cell_count self.now.netlist.now }
        ensures { result ≡ true → Sound self.now.width.bits self.now.netlist.now n
            self.now.given shown }
    {
        let kind = cells::kind(self.netlist, n);
        let x = cells::number(self.netlist, n, 1);
        let y = cells::number(self.netlist, n, 2);
        let z = cells::number(self.netlist, n, 3);
        self.row(Gate::from(kind), n, [kind, x, y, z], shown)
    }
}
