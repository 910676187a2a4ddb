// Standard input, or another reader.
#![tactic(auto)]

ghost use Rattle.std.specs.Prelude.{◌≤◌, length};

use std::io::Read;

// Reads until a buffer is full, the input ends or a read fails, and answers how many bytes stand at the buffer's start.
pub fn read_full(input: &mut impl Read, buf: &mut [u8]) -> usize
    ensures { result ≤ length buf.new }
{
    // `read_exact` does not tell how far it came
    let mut done = 0;
    while done < buf.len() {
        match input.read(&mut buf[done..]) {
            Ok(0) => return done,
            Ok(n) => done += n,
            Err(_) => return done,
        }
    }
    done
}

// Whether it stands at its end: a failed read is an error, and `read_full` does not tell the two apart.
pub fn at_end(input: &mut impl Read) -> bool {
    let mut more = [0; 1];
    matches!(input.read(&mut more), Ok(0))
}
