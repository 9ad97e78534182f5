// Reads a scene from standard input and writes its answer line.
#![tactic(auto)]

use answer_line::LINE_LIMIT;
use std::io;

// One byte more than the longest scene has. A longer input has the line of its first 38,919 bytes: `line_of_first_bytes` (answer_line, `FirstBytes`).
const ROOM: usize = 38919;

fn main(rt: HostRuntime) -> io::Result<()> {
    let mut input = [0u8; ROOM];
    // A read that fails ends the input, as the end does.
    let (length, _) = streams::read_full(&mut rt.stdin(), &mut input);
    let mut line = [0u8; LINE_LIMIT];
    let written = answer_line::write_line(&input[..length], &mut line);
    rt.write_all(&line[..written])
}
