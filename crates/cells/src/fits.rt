// The refusals 13 to 16 of one cell: its kind, and three tests of a number by its port, each asked
// of x, y and z. docs/READING.md: "Refusal numbers".
ghost use Rattle.std.specs.Prelude.{◌≡◌, ℕ, Bool, true, ◌<◌};
ghost use Rattle.circuit.specs.declared.Port.{Port};
ghost use Rattle.circuit.specs.Cells.{cell_count};
ghost use Rattle.circuit.specs.Netlists.{
  number_fits,
  wire_fits,
  sort_fits,
  all_ports,
  cell_refusal,
};
ghost use Rattle.cells.specs.Numbers.{EachPort};

use crate::{count, kind, kinds, number};
use circuit::Port;
use meaning::Cause;
use words::Width;

// 14: the number is in the range of its port.
fn number_fits(width: Width, port: Port, v: u32) -> bool
    ensures { result ≡ number_fits width.bits port v }
{
    match port {
        Port::Unused => v == 0,
        Port::Input => v <= 15,
        Port::Constant => width.fits(v),
        _ => true,
    }
}

// 15: the wire is lower than n, or for a register any of the wires there are.
fn wire_fits(n: usize, cells: usize, port: Port, v: u32) -> bool
    ensures { result ≡ wire_fits n cells port v }
{
    match port {
        Port::Bit | Port::Word => (v as usize) < n,
        Port::LaterBit | Port::LaterWord => (v as usize) < cells,
        _ => true,
    }
}

// 16: the wire, which is there, is no word where a bit is due and no bit where a word is due.
fn sort_fits(netlist: &[u32], port: Port, v: u32) -> bool
    requires { (n : ℕ) × (n < cell_count netlist.now)
        × (wire_fits n (cell_count netlist.now) port v ≡ true) }
    ensures { result ≡ sort_fits netlist.now port v }
{
    match port {
        Port::Bit | Port::LaterBit => !kinds::drives_word(kind(netlist, v as usize)),
        Port::Word | Port::LaterWord => !kinds::drives_bit(kind(netlist, v as usize)),
        _ => true,
    }
}

// A test of all three numbers of cell n, each as what it is. `of` is what the test computes.
fn all_ports<F: Fn(Port, u32) -> bool>(netlist: &[u32], n: usize, test: F) -> bool
    ghost of: { Port → ℕ → Bool }
    requires in_netlist { n < cell_count netlist.now }
    requires callable { EachPort (λ p v. F.pre test p v) netlist.now n }
    requires answers { (p : Port) (v : ℕ) (r : Bool) → F.post test p v r → r ≡ of p v }
    ensures { result ≡ all_ports of netlist.now n }
{
    let ports = kinds::ports_of(kind(netlist, n));
    test(ports.x, number(netlist, n, 1))
        && test(ports.y, number(netlist, n, 2))
        && test(ports.z, number(netlist, n, 3))
}

// The first refusal of 13 to 16 that cell n gives.
#[tactic(auto, unfolding(circuit::specs::Netlists::cell_refusal))]
pub fn refusal(width: Width, netlist: &[u32], n: usize) -> Result<(), Cause>
    requires { n < cell_count netlist.now }
    ensures { result ≡ cell_refusal width.bits netlist.now n }
{
    if !kinds::known(kind(netlist, n)) {
        return Err(Cause::CellKind);
    }
    if !all_ports(netlist, n, |port, v| number_fits(width, port, v)) {
        return Err(Cause::CellNumber);
    }
    let cells = count(netlist);
    if !all_ports(netlist, n, |port, v| wire_fits(n, cells, port, v)) {
        return Err(Cause::CellWire);
    }
    if !all_ports(netlist, n, |port, v| sort_fits(netlist, port, v)) {
        return Err(Cause::WireSort);
    }
    Ok(())
}
