// Reads an encoded molecule from standard input and prints its record: document 01's line program, on a tray. What is printed is
// line_molecule's. The file stdin has the document's example, and stdout the lines that it prints.
#![tactic(auto)]

ghost use Rattle.std.specs.Prelude.{◌≤◌, length};

use line_molecule::duplex_line;
use std::io::{Read, Write};

// Reads until buf is full, the input ends or a read fails, and answers how many bytes stand at the front of buf.
fn read_full(input: &mut impl Read, buf: &mut [u8]) -> usize
    ensures { result ≤ length buf.new }
{
    let mut done = 0;
    // Not a `for`: how far a read gets is known only after it.
    while done < buf.len() {
        let Ok(n) = input.read(&mut buf[done..]) else {
            break;
        };
        if n == 0 {
            break;
        }
        done += n;
    }
    done
}

// There is room for a byte more than an encoded molecule can have, so that one that is too long is seen to be. The status is 0,
// also where not all could be read or printed.
fn main(rt: HostRuntime) {
    // No heap: arrays of the most that is looked at.
    let mut input = [0; 65537];
    let n = read_full(&mut rt.stdin(), &mut input);
    let line = duplex_line(&input[..n]);
    let _ = rt.stdout().write_all(&line.bytes[..line.length]);
}
