// Reads a width and a table from standard input and writes the Verilog text of the table's circuit,
// or one line that says why not. One byte more than a list may have is read, so that a longer one
// is seen. What is printed is `console::respond`'s, proved.
#![tactic(auto)]

ghost use Rattle.std.specs.Prelude.{◌≤◌, length};

use std::io;
use std::io::{Print, Read};

// Reads until `input` is full, the input ends or a read fails, and answers how many bytes it read.
fn read_full(from: &mut impl Read, input: &mut [u8]) -> usize
    ensures { result ≤ length input.old }
{
    let mut count = 0;
    while count < input.len() {
        match from.read(&mut input[count..]) {
            Ok(0) | Err(_) => break,
            Ok(n) => count += n,
        }
    }
    count
}

fn main(rt: HostRuntime) -> io::Result<()> {
    let mut input = [0u8; 16385];
    let count = read_full(&mut rt.stdin(), &mut input);
    let mut text = [0u8; 65536];
    let length = console::respond(&input[..count], &mut text);
    rt.write_all(&text[..length])
}
