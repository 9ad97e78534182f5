// What the sweep notes down of each element of a scene: how it lies beside the other object.
#![tactic(auto)]

ghost use Rattle.std.specs.Prelude.{ℕ, ◌≡◌, ◌<◌, ◌≤◌, List, get_or, length, set, map, take};
ghost use Rattle.scene.specs.declared.Scene.{Scene};
ghost use Rattle.sweep_laws.specs.Swept.{slot};
ghost use Rattle.sweep_laws.specs.Noted.{Noted};
ghost use Rattle.sweep_notes.specs.Numbers.{note_number, as_read};
ghost use Rattle.sweep_notes.specs.Lent.{Laid};

use std::marker::Model;

/// An even or an odd number of the other object's segments pass under it; of a point alone: it is on one of them.
#[derive(Clone, Copy, PartialEq, Eq)]
pub enum Note {
    Even,
    Odd,
    On,
}

impl From<bool> for Note {
    ghost use Rattle.whole.specs.Count.{bit};

    ghost from_gives = { λ odd note. note_number note ≡ bit odd };

    fn from(odd: bool) -> Note {
        if odd { Note::Odd } else { Note::Even }
    }
}

// By a byte: a number above 1 is read as 2 is.
impl From<u8> for Note {
    ghost use Rattle.sweep_notes.specs.Numbers.{as_read};

    ghost from_gives = { λ byte note. note_number note ≡ as_read byte };

    fn from(byte: u8) -> Note {
        match byte {
            0 => Note::Even,
            1 => Note::Odd,
            _ => Note::On,
        }
    }
}

impl From<Note> for u8 {
    ghost from_gives = { λ note byte. byte ≡ note_number note };

    fn from(note: Note) -> u8 {
        match note {
            Note::Even => 0,
            Note::Odd => 1,
            Note::On => 2,
        }
    }
}

// As many elements as an object may have.
const ROOM: usize = 1024;

/// A note of each element of F and of G. Clauses see their numbers: those of F, and 1,024 further on those of G.
#[derive(Drop)]
pub struct Notes {
    of_f: [Note; ROOM],
    of_g: [Note; ROOM],
}

impl Model for Notes {
    ghost use Rattle.std.specs.Prelude.{List, ℕ, map, ◌++◌};

    ghost Value = { List ℕ };

    ghost use Rattle.sweep_notes.specs.Numbers.{note_number};

    ghost view = { λ a. map note_number a.of_f ++ map note_number a.of_g };
}

impl Notes {
    pub fn new() -> Self
        ensures room { length result ≡ 2048 }
    {
        Notes {
            of_f: [Note::Even; ROOM],
            of_g: [Note::Even; ROOM],
        }
    }

    // That of the element k of F, or of G.
    pub fn of(&self, first: bool, k: usize) -> Note
        requires { k < 1024 }
        ensures { note_number result ≡ get_or self.now (slot first k) 0 }
    {
        if first { self.of_f[k] } else { self.of_g[k] }
    }

    pub fn write(&mut self, first: bool, k: usize, note: Note)
        requires { k < 1024 }
        ensures is { self.new ≡ set self.old (slot first k) (note_number note) }
        ensures room { length self.old ≡ 2048 }
    {
        if first {
            self.of_f[k] = note;
        } else {
            self.of_g[k] = note;
        }
    }

    /// The notes that lent bytes hold: those of F, and 1,024 further on those of G. A byte above 1 is `On`, as the definitions read it.
    pub fn of_bytes(bytes: &[u8]) -> Self
        requires { 2048 ≤ length bytes.now }
        ensures is { result ≡ map as_read (take 2048 bytes.now) }
        ensures noted { (s : List ℕ) (scene : Scene) → (scene.f.count ≤ 1024) × (scene.g.count ≤ 1024) → Noted s scene bytes.now → Noted s scene result }
    {
        let mut notes = Notes::new();
        for k in 0..ROOM {
            notes.write(true, k, Note::from(bytes[k]));
        }
        for j in 0..ROOM {
            notes.write(false, j, Note::from(bytes[ROOM + j]));
        }
        notes
    }

    /// Lays their numbers into lent bytes, a byte for each; what is lent beyond them stays.
    pub fn lay(&self, bytes: &mut [u8])
        requires { 2048 ≤ length bytes.old }
        ensures is { Laid self.now bytes.old bytes.new }
        ensures room { length bytes.new ≡ length bytes.old }
        ensures noted { (s : List ℕ) (scene : Scene) → (scene.f.count ≤ 1024) × (scene.g.count ≤ 1024) → Noted s scene self.now → Noted s scene bytes.new }
    {
        for k in 0..ROOM {
            bytes[k] = u8::from(self.of_f[k]);
        }
        for j in 0..ROOM {
            bytes[ROOM + j] = u8::from(self.of_g[j]);
        }
    }
}
