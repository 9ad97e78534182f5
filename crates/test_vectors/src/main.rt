// Asks for the vectors of the scenes of standard input, each `label: [4,0] bytes;` on lines of its own, with the masks of F and of G and the bytes as document
// 01 writes them, and writes both vectors of each, or `no`, number and place. Without masks nothing is wanted.
#![tactic(auto)]

use flags_vectors::question;
use std::io;
use std::io::Stdout;
use streams::Output;
use test_notation::{Case, Cases};

// The number that a text's digits make, modulo 65,536.
fn number(text: &[u8]) -> u16 {
    text.iter().filter(|c| c.is_ascii_digit()).fold(
        0u16,
        |n, c| n
            .wrapping_mul(10)
            .wrapping_add(u16::from(c.wrapping_sub(b'0'))),
    )
}

// The masks of F and of G, and the scene's text.
fn wanted(text: &[u8]) -> (u16, u16, &[u8]) {
    match test_notation::split_once(text, b']') {
        Some((masks, scene)) => {
            let (of_f, of_g) = test_notation::split_once(masks, b',').unwrap_or((masks, &[]));
            (number(of_f), number(of_g), scene)
        }
        None => (0, 0, text),
    }
}

fn answer(out: &mut Output<Stdout>, case: Case<'_>) {
    let mut space = [0u8; 16384];
    let (of_f, of_g, text) = wanted(case.text);
    let bytes = test_notation::write(&mut space, text);
    out.write(case.label);
    match question::vectors(bytes, of_f, of_g) {
        Ok(v) => writeln!(out, ": {} {}", v.f, v.g),
        Err(r) => writeln!(out, ": no {} {}", u8::from(r.reason), r.place),
    };
}

fn main(rt: HostRuntime) -> io::Result<()> {
    let mut space = [0u8; 65536];
    let (n, outcome) = streams::read_full(&mut rt.stdin(), &mut space);
    outcome?;
    let mut out = Output::new(rt.stdout());
    for case in Cases(&space[..n]) {
        answer(&mut out, case);
    }
    out.finish()
}
