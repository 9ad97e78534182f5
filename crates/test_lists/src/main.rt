// Asks for the overlap list of the scene on standard input, and of two small ones, with buffers of several lengths. Writes what comes back, a line
// for each: number, place, count, and the whole buffer after the call, which held nines before it.
#![tactic(auto)]

use std::io;
use std::io::Stdout;
use streams::Output;

// Two digits are enough here.
fn write_field(out: &mut Output<Stdout>, n: usize) {
    write!(out, " {:02}", n % 100);
}

fn ask(out: &mut Output<Stdout>, name: &str, scene: &[u8], list: &mut [u8]) {
    let (number, place, count) = match overlap::overlap_list(scene, list) {
        Ok(count) => (0, 0, count),
        Err(r) => (u8::from(r.reason), r.place, 0),
    };
    write!(out, "{name}");
    write_field(out, usize::from(number));
    write_field(out, place);
    write_field(out, count);
    for byte in list.iter() {
        write_field(out, usize::from(*byte));
    }
    writeln!(out);
}

// Scene e: its list has seven bytes.
fn ask_for_e(out: &mut Output<Stdout>, scene: &[u8]) {
    ask(out, "e, room for more", scene, &mut [9; 9]);
    ask(out, "e, just enough", scene, &mut [9; 7]);
    ask(out, "e, one short", scene, &mut [9; 6]);
}

fn main(rt: HostRuntime) -> io::Result<()> {
    let mut input = [0u8; 512];
    let (n, outcome) = streams::read_full(&mut rt.stdin(), &mut input);
    outcome?;
    let mut out = Output::new(rt.stdout());
    ask_for_e(&mut out, &input[..n]);
    ask(&mut out, "two empty regions", b"T\x03ET\x03E", &mut []);
    ask(&mut out, "no points twice", b"T\x01ET\x01E", &mut [9; 2]);
    out.finish()
}
