// Folds the circuit on standard input and prints how many states each layer has, or why it is refused.
#![tactic(auto)]

ghost use Rattle.std.specs.Prelude.{◌≤◌, ◌<◌, length, take, IfOk};
ghost use Rattle.std.specs.Io.KnownBytes.{Consumes, IsAtEnd};

use program::{Limits, run};
use std::io;
use std::io::{Read, Write};

// Reads until the buffer is full or the input ends, and answers how many bytes are in it: all that the input had, or as many as there is
// room for.
fn read_full<R: Read>(input: &mut R, buffer: &mut [u8]) -> io::Result<usize>
    ensures within { IfOk result (λ count. count ≤ length buffer.new) }
    ensures bytes { IfOk result (λ count. Consumes (R.remaining input.old) (R.remaining input.new) (take count buffer.new)) }
    ensures ended { IfOk result (λ count. count < length buffer.new → IsAtEnd (R.remaining input.new)) }
{
    let mut length = 0;
    while length < buffer.len() {
        let count = input.read(&mut buffer[length..])?;
        if count == 0 {
            break;
        }
        length += count;
    }
    Ok(length)
}

fn main(rt: HostRuntime) -> io::Result<()> {
    let mut input = [0u8; Limits::INPUT];
    let mut lines = [0u8; report::Limits::ROOM];
    let length = read_full(&mut rt.reader(), &mut input)?;
    let count = run(&input[..length], &mut lines);
    io::writer(&rt).write_all(&lines[..count])
}
