// Checks the scenes and objects of standard input, each `label: bytes;` on lines of its own, with the bytes as document 01 writes them, and writes
// number and place of each, two zeros where it is taken. A label that begins with `o`, as `object` does, is checked as one object alone.
#![tactic(auto)]

use check_alone::check_object;
use check_verdict::check_scene;
use scene::Refusal;
use std::io;
use std::io::Stdout;
use streams::Output;
use test_notation::{Case, Cases};

// The refusal of a case, if there is one.
fn refusal(case: Case<'_>) -> Option<Refusal> {
    let mut space = [0u8; 16384];
    let bytes = test_notation::write(&mut space, case.text);
    match case.label {
        [b'o', ..] => check_object(bytes).err(),
        _ => check_scene(bytes).err(),
    }
}

fn check(out: &mut Output<Stdout>, case: Case<'_>) {
    let (number, place) = refusal(case).map_or((0, 0), |r| (u8::from(r.reason), r.place));
    out.write(case.label);
    writeln!(out, ": {number} {place}");
}

// Kept beside the main of `test_vectors`, which differs in one call: a function over both would take that call as a closure, and say no more.
fn main(rt: HostRuntime) -> io::Result<()> {
    let mut space = [0u8; 65536];
    let (n, outcome) = streams::read_full(&mut rt.stdin(), &mut space);
    outcome?;
    let mut out = Output::new(rt.stdout());
    for case in Cases(&space[..n]) {
        check(&mut out, case);
    }
    out.finish()
}
