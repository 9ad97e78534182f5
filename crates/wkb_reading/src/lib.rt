// A well-known binary file into one object of ours, in a lent buffer (document 02, Paper 9): a scan for 24, 25 and 26; then a second pass that gathers the
// different points or segments, for 20; the object's bytes in a vector of our own, for 01's checks; and last the lent buffer, for 21.
#![tactic(auto)]

ghost use Rattle.std.specs.Prelude.{◌≡◌, length};
ghost use Rattle.wkb_reading.specs.declared.ReadFault.TheVariants.{Bytes, TooMany, Refused};
ghost use Rattle.wkb_reading.specs.Reading.{handed, filled, read_file, buffer_after};

use arrayvec::CapacityError;
use object::ObjectBytes;
use scene::{Reason, Refusal};
use wkb_grammar::Fault;

pub mod object;

// Why a file is not read: a fault of its bytes, with its place; else at place 0 more than 1,024 elements, what 01's checks refuse, or a short buffer.
#[derive(Clone, Copy)]
pub enum ReadFault {
    Bytes(Fault),
    TooMany,
    Refused(Reason),
    ShortBuffer,
}

impl From<Fault> for ReadFault {
    ghost from_gives = { λ fault e. e ≡ Bytes fault };

    fn from(fault: Fault) -> ReadFault {
        ReadFault::Bytes(fault)
    }
}

impl<K: Drop> From<CapacityError<K>> for ReadFault {
    ghost from_gives = { λ _ e. e ≡ TooMany };

    fn from(_: CapacityError<K>) -> ReadFault {
        ReadFault::TooMany
    }
}

impl From<Refusal> for ReadFault {
    ghost from_gives = { λ refusal e. e ≡ Refused refusal.reason };

    // Its place is one in the object's bytes, and none in the file's.
    fn from(refusal: Refusal) -> ReadFault {
        ReadFault::Refused(refusal.reason)
    }
}

// "21" where they do not fit; else into the lent buffer.
fn hand_over(bytes: &[u8], object: &mut [u8]) -> Result<usize, ReadFault>
    ensures { (result ≡ handed bytes.now (length object.old)) × (object.new ≡ filled bytes.now result object.old) }
{
    if object.len() < bytes.len() {
        return Err(ReadFault::ShortBuffer);
    }
    object[..bytes.len()].copy_from_slice(bytes);
    Ok(bytes.len())
}

// A file's bytes into a lent buffer, for every byte string and every buffer. The buffer is written only after the last check.
pub fn read(wkb: &[u8], object: &mut [u8]) -> Result<usize, ReadFault>
    ensures { (result ≡ read_file wkb.now (length object.old)) × (object.new ≡ buffer_after wkb.now object.old) }
{
    wkb_scan::scan(wkb)?;
    let mut bytes = ObjectBytes::new();
    object::of_file(wkb, &mut bytes)?;
    hand_over(bytes.as_slice(), object)
}
