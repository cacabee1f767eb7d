// Each answer as the numbers that C sees: a refusal's number and place first, 0 and 0 where there
// is none. `meaning`'s `specs/Answers.antt` and `circuit`'s `specs/Compiling.antt` say which is
// which.
ghost use Rattle.std.specs.Prelude.{◌≡◌, ◌++◌, ◌-◌, ◌≤◌, replicate};
ghost use Rattle.meaning.specs.Choices.{bit};
ghost use Rattle.meaning.specs.Refusals.{refusal_numbers};
ghost use Rattle.meaning.specs.Answers.{judged, evaluated_numbers};
ghost use Rattle.circuit.specs.Compiling.{compiled_numbers};
ghost use Rattle.verilog.specs.Writing.{written_numbers};

use circuit::Compiled;
use meaning::{Answer, Refusal};

// Load as C gives it: 0 for no, anything else for yes.
pub fn raised(load: u32) -> bool
    ensures { result ≡ bit load }
{
    load != 0
}

// A refusal's number and place, and zeros.
fn refused<const N: usize>(refusal: Refusal) -> [u32; N]
    requires { 2 ≤ N }
    ensures { result ≡ refusal_numbers refusal ++ replicate (N - 2) 0 }
{
    let mut numbers = [0; N];
    numbers[0] = refusal.cause.number();
    numbers[1] = refusal.place;
    numbers
}

// A judgement: refusal number and place.
pub fn judged_numbers(verdict: Result<(), Refusal>) -> [u32; 2]
    ensures { result ≡ judged verdict }
{
    match verdict {
        Ok(()) => [0; 2],
        Err(refusal) => refused(refusal),
    }
}

// The writer's answer: refusal number, place, the text's length.
pub fn written_numbers(written: Result<u32, Refusal>) -> [u32; 3]
    ensures { result ≡ written_numbers written }
{
    match written {
        Ok(length) => [0, 0, length],
        Err(refusal) => refused(refusal),
    }
}

// The evaluator's answer: refusal number, place, 1 if ended else 0, cycles, o, and 16 words.
pub fn evaluated_numbers(evaluated: Result<Option<Answer>, Refusal>) -> [u32; 21]
    ensures { result ≡ evaluated_numbers evaluated }
{
    match evaluated {
        Ok(Some(answer)) => {
            let mut numbers = [0; 21];
            numbers[..5].copy_from_slice(&[0, 0, 1, answer.cycles, answer.outs]);
            numbers[5..].copy_from_slice(&answer.words);
            numbers
        }
        Ok(None) => [0; 21],
        Err(refusal) => refused(refusal),
    }
}

// The compiler's answer: refusal number and place, the counts of cells, inputs and outputs, the
// done wire, then the output wires.
pub fn compiled_numbers(compiled: Result<Compiled, Refusal>) -> [u32; 22]
    ensures { result ≡ compiled_numbers compiled }
{
    match compiled {
        Ok(made) => {
            let mut numbers = [0; 22];
            numbers[..6].copy_from_slice(&[0, 0, made.cells, made.ins, made.outs, made.done]);
            numbers[6..].copy_from_slice(&made.wires);
            numbers
        }
        Err(refusal) => refused(refusal),
    }
}
