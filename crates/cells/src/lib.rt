// A netlist's numbers, its checks 1 and 12 to 16, and which input words it names. Every slice has
// its verdict: accepted, or refused for the lowest cell that gives a cause.
// docs/READING.md: "Cells", "Refusal numbers".
//
//     check           the width and the length, then cell by cell, lowest first
//     fits::refusal   13 to 16 of one cell: its kind, then its numbers by the ports of the kind
//     kinds           which kinds drive bits and words, and the ports of each
#![tactic(auto)]

pub mod fits;
pub mod kinds;

ghost use Rattle.std.specs.Prelude.{◌≡◌, ◌<◌};
ghost use Rattle.circuit.specs.Cells.{stride, cell_number, kind_at, cell_count};
ghost use Rattle.circuit.specs.Netlists.{netlist_fits, netlist_verdict};
ghost use Rattle.circuit.specs.Simulated.{inputs_given};

use circuit::Gate;
use meaning::{Cause, Refusal};
use words::Width;

// How many numbers a cell has, and how many cells a netlist at most.
const STRIDE: usize = 4;

const MOST: usize = 4096;

// Number j of cell n: its kind, x, y, z.
pub fn number(netlist: &[u32], n: usize, j: usize) -> u32
    requires { (j < stride) × (n < cell_count netlist.now) }
    ensures { result ≡ cell_number netlist.now n j }
{
    netlist[n * STRIDE + j]
}

// The kind of cell n.
pub fn kind(netlist: &[u32], n: usize) -> u32
    requires { n < cell_count netlist.now }
    ensures { result ≡ kind_at netlist.now n }
{
    number(netlist, n, 0)
}

// How many cells there are.
pub fn count(netlist: &[u32]) -> usize
    ensures { result ≡ cell_count netlist.now }
{
    netlist.len() / STRIDE
}

// 12: there are cells, whole ones, and no more than fit.
pub fn netlist_fits(netlist: &[u32]) -> bool
    ensures { result ≡ netlist_fits netlist.now }
{
    let len = netlist.len();
    1 <= len && len % STRIDE == 0 && len <= MOST * STRIDE
}

// 1 and 12 to 16.
#[tactic(auto, using(crate::proofs::Checks::by_steps))]
pub fn check(width: u32, netlist: &[u32]) -> Result<(), Refusal>
    ensures { result ≡ netlist_verdict width netlist.now }
{
    let width = Width::try_from(width)?;
    if !netlist_fits(netlist) {
        return Err(Cause::NetlistLength.into());
    }
    let count = count(netlist);
    for n in 0..count {
        let place = n as u32;
        fits::refusal(width, netlist, n).map_err(|cause| Refusal { cause, place })?;
    }
    Ok(())
}

// Whether every input cell names one of the first m words.
pub fn names_given(netlist: &[u32], m: usize) -> bool
    ensures { result ≡ inputs_given netlist.now m (cell_count netlist.now) }
{
    (0..count(netlist)).all(|n| {
        Gate::from(kind(netlist, n)) != Gate::Input || (number(netlist, n, 1) as usize) < m
    })
}
