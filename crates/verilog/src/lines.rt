// Lines of the text: rows of ports, the lines of each cell, and the whole text.
ghost use Rattle.std.specs.Prelude.{◌≡◌, ◌++◌, ℕ, ◌+◌, ◌*◌, ◌^◌, ◌≤◌, ◌<◌, length};
ghost use Rattle.circuit.specs.Cells.{cell_count};
ghost use Rattle.spelling.specs.Pieces.{blanks, filled, Wrote};
ghost use Rattle.verilog.specs.Lines.{ByKind};
ghost use Rattle.verilog.specs.Texts.{
  each_of,
  names as names_of,
  port_lines,
  cell_blanks,
  cell_texts,
  ending as ending_of,
  text_of,
};

use crate::templates;
use spelling::{Blanks, blanks_of, fill};

// A netlist with the ports that a caller names for it: i input and o output words, the done wire,
// and the output wires.
#[derive(Clone, Copy)]
pub struct Design<'a> {
    pub width: u32,
    pub netlist: &'a [u32],
    pub i: u32,
    pub o: u32,
    pub done: u32,
    pub outs: &'a [u32; 16],
    ghost fits: { (0 < width) × (cell_count netlist.now ≤ 4096) × (i ≤ 16) × (o ≤ 16) },
}

#[tactic(auto, using(crate::proofs::Joining::joining))]
impl Design<'_> {
    // Writes a line of no port's own: X is the wire x.
    fn line(&self, text: &mut [u8], at: usize, template: &[u8], x: u32) -> usize
        requires { (at < 2 ^ 32) × (length template.now ≤ 64) }
        ensures wrote { Wrote text.old at (filled (blanks self.now.width 0 x) template.now) result text.new }
        ensures upper_bound { result ≤ at + 640 }
    {
        fill(text, at, template, blanks_of(self.width, 0, x))
    }

    // Writes a template once for each of count ports.
    fn row(&self, text: &mut [u8], at: usize, template: &[u8], count: u32) -> usize
        requires { (at < 2 ^ 31) × (length template.now ≤ 64) × (count ≤ 16) }
        ensures wrote { Wrote text.old at (each_of self.now.width self.now.outs.now template.now count) result text.new }
        ensures upper_bound { result ≤ at + 10240 }
    {
        let outs = self.outs;
        let mut next = at;
        for (j, &wire) in outs[..count as usize].iter().enumerate() {
            next = fill(text, next, template, blanks_of(self.width, j as u32, wire));
        }
        next
    }

    // The blanks of a line about cell n.
    fn cell_blanks(&self, n: usize) -> Blanks
        requires { n < cell_count self.now.netlist.now }
        ensures { result ≡ cell_blanks self.now.width self.now.netlist.now n }
    {
        Blanks {
            n: n as u32,
            x: cells::number(self.netlist, n, 1),
            y: cells::number(self.netlist, n, 2),
            z: cells::number(self.netlist, n, 3),
            width: self.width,
            top: self.width - 1,
        }
    }

    // Writes a line of each cell, in order, by the template of its kind.
    fn cell_lines<'t, F: Fn(u32) -> &'t [u8]>(
        &self,
        text: &mut [u8],
        at: usize,
        template: F,
    ) -> usize
        requires room { at < 2 ^ 31 }
        requires callable { F.IsAlwaysCallable template }
        requires short { (kind : ℕ) (t : _) → F.post template kind t → length t.now ≤ 64 }
        ensures wrote { (line : ByKind) → ((kind : ℕ) (t : _) → F.post template kind t → t.now ≡ line kind)
            → Wrote text.old at (cell_texts line self.now.width self.now.netlist.now)
            result text.new }
        ensures upper_bound { result ≤ at + 2621440 }
    {
        let mut next = at;
        for n in 0..cells::count(self.netlist) {
            let template = template(cells::kind(self.netlist, n));
            next = fill(text, next, template, self.cell_blanks(n));
        }
        next
    }

    // Writes the ports' names.
    fn names(&self, text: &mut [u8]) -> usize
        ensures wrote { Wrote text.old 0 (names_of self.now.width self.now.i self.now.o self.now.outs.now) result text.new }
        ensures upper_bound { result ≤ 22400 }
    {
        let at = self.line(text, 0, b"module f (clk,load", 0);
        let at = self.row(text, at, b",inpN", self.i);
        let at = self.line(text, at, b",done", 0);
        let at = self.row(text, at, b",outN", self.o);
        self.line(text, at, b");\n", 0)
    }

    // Writes a line for the ports that are bits, and one for each word.
    fn port_lines(&self, text: &mut [u8], at: usize) -> usize
        requires { at < 2 ^ 30 }
        ensures wrote { Wrote text.old at (port_lines self.now.width self.now.i self.now.o self.now.outs.now) result text.new }
        ensures upper_bound { result ≤ at + 21760 }
    {
        let at = self.line(text, at, b"  input clk,load;\n", 0);
        let at = self.row(text, at, b"  input [T:0] inpN;\n", self.i);
        let at = self.line(text, at, b"  output done;\n", 0);
        self.row(text, at, b"  output [T:0] outN;\n", self.o)
    }

    // Writes what done and the outputs are, and the end.
    fn ending(&self, text: &mut [u8], at: usize) -> usize
        requires { at < 2 ^ 30 }
        ensures wrote { Wrote text.old at (ending_of self.now.width self.now.o self.now.done self.now.outs.now) result text.new }
        ensures upper_bound { result ≤ at + 11520 }
    {
        let at = self.line(text, at, b"  assign done = wX;\n", self.done);
        let at = self.row(text, at, b"  assign outN = wX;\n", self.o);
        self.line(text, at, b"endmodule\n", 0)
    }

    // Writes the whole text.
    #[tactic(auto, using(crate::proofs::Joining::joining), unfolding(crate::specs::Texts::text_of))]
    pub fn whole(&self, text: &mut [u8]) -> usize
        ensures wrote { Wrote text.old 0 (text_of self.now.width self.now.netlist.now self.now.i self.now.o self.now.done self.now.outs.now) result text.new }
        ensures upper_bound { result < 2 ^ 32 }
    {
        let at = self.names(text);
        let at = self.port_lines(text, at);
        let at = self.cell_lines(text, at, |kind| templates::declaration(kind));
        let at = self.cell_lines(text, at, |kind| templates::clock_line(kind));
        self.ending(text, at)
    }
}
