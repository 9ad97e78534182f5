// What the programs read and write by: a reader into a lent buffer, and a writer that many short pieces go to.
#![tactic(auto)]

ghost use Rattle.std.specs.Prelude.{◌≡◌, ◌<◌, ◌↔◌, length, take, None, Err, IsTrue, IsSome, Ok, IsOk, IfSome, IfNone, OnOk};
ghost use Rattle.std.specs.Fn.{FnOnceReturnsAtMut};
ghost use Rattle.std.specs.Io.KnownBytes.{Appends, Consumes, IsAtEnd};
ghost use Rattle.streams.specs.Counts.{IsPrefixLen};

use std::fmt::Display;
use std::io;
use std::io::{Read, Write};

// Reads until buf is full, the input ends or a read fails. Answers how many bytes stand at the start of buf, and the failure, if it is that which ended it.
// Kept as a loop: std's calls that read on either fail where the input ends early or need the heap.
// Kept as a count: a contract names what buf holds after the call only where no slice of it is handed out, and what was read before a failure counts too.
pub fn read_full<R: Read>(input: &mut R, buf: &mut [u8]) -> (usize, io::Result<()>)
    ensures in_bounds { IsPrefixLen result.0 buf.new }
    ensures read { Consumes (R.remaining input.old) (R.remaining input.new) (take result.0 buf.new) }
    ensures end { result.0 < length buf.new → OnOk result.1 (IsAtEnd (R.remaining input.new)) }
{
    let mut done = 0;
    while done < buf.len() {
        match input.read(&mut buf[done..]) {
            Ok(0) => break,
            Ok(n) => done += n,
            Err(e) => return (done, Err(e)),
        }
    }
    (done, Ok(()))
}

// Where the pieces go, and the first write that failed. After that one nothing more is written.
#[derive(Drop)]
pub struct Output<W> {
    pub to: W,
    pub failure: Option<io::Error>,
}

impl<W: Write> Output<W> {
    pub fn new(to: W) -> Output<W>
        ensures to { result.to ≡ to }
        ensures failure { result.failure ≡ None }
    {
        Output { to, failure: None }
    }

    // Runs a write, where no earlier one failed. Answers whether none has.
    fn attempt<F: FnOnce(&mut W) -> io::Result<()>>(&mut self, write: F) -> bool
        requires { F.IsAlwaysCallable write }
        ensures ran { IsTrue result → FnOnceReturnsAtMut F.FnOnce write self.old.to (Ok tt) self.new.to }
        ensures well { IsTrue result ↔ (self.new.failure ≡ None) }
        ensures stays { IsSome self.old.failure → self.new ≡ self.old }
    {
        if self.failure.is_some() {
            return false;
        }
        match write(&mut self.to) {
            Ok(()) => true,
            Err(e) => {
                self.failure = Some(e);
                false
            }
        }
    }

    // Writes all of the bytes. Answers false where they could not be written, or an earlier write failed.
    pub fn write(&mut self, bytes: &[u8]) -> bool
        ensures written { IsTrue result → Appends (W.contents self.old.to) (W.contents self.new.to) bytes.now }
        ensures well { IsTrue result ↔ (self.new.failure ≡ None) }
        ensures stays { IsSome self.old.failure → self.new ≡ self.old }
    {
        self.attempt(|to| to.write_all(bytes))
    }

    // Writes what `{}` writes of a value, as `write` does: `write!` and `writeln!` call it.
    pub fn write_fmt<D: Display + Drop>(&mut self, value: D) -> bool
        ensures written { IsTrue result → IfSome (D.output value) (Appends (W.contents self.old.to) (W.contents self.new.to)) }
        ensures well { IsTrue result ↔ (self.new.failure ≡ None) }
        ensures stays { IsSome self.old.failure → self.new ≡ self.old }
    {
        self.attempt(|to| to.write_fmt(value))
    }

    // The first failure, if a write failed.
    pub fn finish(self) -> io::Result<()>
    where
        W: Drop,
        ensures well { IfNone self.failure (IsOk result) }
        ensures failed { IfSome self.failure (λ e. result ≡ Err e) }
    {
        match self.failure {
            None => Ok(()),
            Some(e) => Err(e),
        }
    }
}
