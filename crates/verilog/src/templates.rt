// The lines of cells as templates, by their kinds. docs/READING.md: "The Verilog text".
ghost use Rattle.std.specs.Prelude.{◌≡◌, ◌≤◌, length};
ghost use Rattle.verilog.specs.Lines.{declaration, operation_line, clock_line};

use circuit::Gate;
use words::Operation;

// The declaration of a cell of this kind; what is no kind has none.
#[tactic(auto, unfolding(crate::specs::Lines::declaration))]
pub fn declaration(kind: u32) -> &'static [u8]
    ensures text { result.now ≡ declaration kind }
    ensures short { length result.now ≤ 64 }
{
    match Gate::from(kind) {
        Gate::Load => b"  wire wN = load;\n",
        Gate::Not => b"  wire wN = !wX;\n",
        Gate::And => b"  wire wN = wX & wY;\n",
        Gate::Or => b"  wire wN = wX | wY;\n",
        Gate::LowRegister => b"  reg wN = 0;\n",
        Gate::HighRegister => b"  reg wN = 1;\n",
        Gate::NonZero => b"  wire wN = wX != 0;\n",
        Gate::Input => b"  wire [T:0] wN = inpX;\n",
        Gate::Constant => b"  wire [T:0] wN = W'dX;\n",
        Gate::WordRegister => b"  reg [T:0] wN = 0;\n",
        Gate::Choice => b"  wire [T:0] wN = wX ? wY : wZ;\n",
        Gate::Copy => b"  wire [T:0] wN = wX;\n",
        Gate::Binary | Gate::Unary => operation_line(kind),
    }
}

// The declaration of an operation; what is none has no declaration.
#[tactic(auto, unfolding(crate::specs::Lines::operation_line))]
fn operation_line(kind: u32) -> &'static [u8]
    ensures text { result.now ≡ operation_line kind }
    ensures short { length result.now ≤ 64 }
{
    if !(13..=22).contains(&kind) {
        return b"";
    }
    match Operation::from(kind) {
        Operation::Add => b"  wire [T:0] wN = wX + wY;\n",
        Operation::Subtract => b"  wire [T:0] wN = wX - wY;\n",
        Operation::And => b"  wire [T:0] wN = wX & wY;\n",
        Operation::Or => b"  wire [T:0] wN = wX | wY;\n",
        Operation::Xor => b"  wire [T:0] wN = wX ^ wY;\n",
        Operation::Equal => b"  wire [T:0] wN = wX == wY;\n",
        Operation::Less => b"  wire [T:0] wN = wX < wY;\n",
        Operation::Complement => b"  wire [T:0] wN = ~wX;\n",
        Operation::ShiftLeft => b"  wire [T:0] wN = wX << 1;\n",
        Operation::ShiftRight => b"  wire [T:0] wN = wX >> 1;\n",
    }
}

// The clock line of a register; other cells have none.
#[tactic(auto, unfolding(crate::specs::Lines::clock_line))]
pub fn clock_line(kind: u32) -> &'static [u8]
    ensures text { result.now ≡ clock_line kind }
    ensures short { length result.now ≤ 64 }
{
    match Gate::from(kind) {
        Gate::LowRegister | Gate::HighRegister | Gate::WordRegister => {
            b"  always @(posedge clk) wN <= wX;\n"
        }
        _ => b"",
    }
}
