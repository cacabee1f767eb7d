// What blocks are put together from, written into a lent netlist. docs/READING.md: "Cells".
// Every function asks for room, and what stands elsewhere in the netlist stays.
//
//     cells    single cells, and groups of them
//     rows     a wire or a cell for each of a block's words
//     leaves   the block of a term without operands
//     seams    what stands in front of and behind a test with its branches
#![tactic(auto, using(crate::proofs::Turns::writes))]

pub mod cells;
pub mod leaves;
pub mod rows;
pub mod seams;
