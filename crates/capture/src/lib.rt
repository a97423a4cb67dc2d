// A capture: entries of a length and that many bytes.
#![tactic(auto)]

ghost use Rattle.std.specs.Prelude.{◌≡◌, ◌<◌};
ghost use Rattle.wire.specs.Fields.{byte_at};
ghost use Rattle.capture.specs.Length.{length_of};
ghost use Rattle.capture.specs.Entry.{front_of};

// A byte of a length holds a group of seven bits; its top bit says that another group follows.
const LAST_GROUP: usize = 0x7f;

const GROUP: usize = 0x80;

pub const LONGEST_ENTRY: usize = 8192;

// How a capture ends: at its end, inside an entry or its length, at a bad length.
#[derive(Clone, Copy)]
pub enum Ending {
    End,
    Cut,
    Bad,
}

// The length in front of an entry, and how many bytes it takes up.
#[derive(Clone, Copy)]
pub struct Length {
    pub len: usize,
    pub used: usize,
}

// An entry at the front of a capture: its bytes are the `len` from `start` on.
#[derive(Clone, Copy)]
pub struct Entry {
    pub start: usize,
    pub len: usize,
}

fn byte(s: &[u8], at: usize) -> usize
    ensures value { result ≡ byte_at s.now at }
    ensures upper_bound { result < 0x100 }
{
    wire::byte_at(s, at) as usize
}

// The length, in its shortest form, of at most two groups, lowest first.
#[tactic(auto, using(refusal::proofs::Tests::chosen, refusal::proofs::Tests::passed_over), unfolding(crate::specs::Length::length_of))]
pub fn parse_length(s: &[u8]) -> Result<Length, Ending>
    ensures { result ≡ length_of s.now }
{
    if s.len() == 0 {
        return Err(Ending::End);
    }
    let low = byte(s, 0);
    if low <= LAST_GROUP {
        return Ok(Length { len: low, used: 1 });
    }
    if s.len() == 1 {
        return Err(Ending::Cut);
    }
    let high = byte(s, 1);
    if high == 0 {
        return Err(Ending::Bad);
    }
    if LAST_GROUP < high {
        return Err(Ending::Bad);
    }
    let len = high % GROUP * GROUP + low % GROUP;
    if LONGEST_ENTRY < len {
        return Err(Ending::Bad);
    }
    Ok(Length { len, used: 2 })
}

// The entry, if all its bytes are there.
pub fn parse_entry(s: &[u8]) -> Result<Entry, Ending>
    ensures { result ≡ front_of s.now }
{
    let Length { len, used } = parse_length(s)?;
    if s.len() - used < len {
        return Err(Ending::Cut);
    }
    Ok(Entry { start: used, len })
}
