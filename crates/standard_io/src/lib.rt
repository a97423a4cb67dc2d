// Reads from standard input and writes to standard output. std's contracts say how many bytes a call may have moved; that a
// call was made no contract can say. So what the system answered stands in values that only this crate can make, each
// from the one before it, with a count of all bytes so far.
#![tactic(auto)]

ghost use Rattle.std.specs.Prelude.{◌≡◌, ◌+◌, ◌^◌, ◌<◌, IfOk, length, take};
ghost use Rattle.standard_io.specs.System.{counted, said_of, reached_by, is_error, Arrived, nothing_heard, quiet_after, heard_after, nothing_written, kept_after};

use std::io;
use std::io::Read;

// To a read: so many bytes are in the block now, the input ends, or an error. Nothing is said where none was made.
#[derive(Clone, Copy)]
pub enum Said {
    Nothing,
    Bytes { len: usize },
    End,
    Error,
}

// What the system said to the last read, and how many bytes all reads brought.
#[derive(Clone, Copy)]
pub struct Heard {
    said: Said,
    total: u64,
}

// Whether the system took all bytes of the last text, and how many bytes it was handed in all.
#[derive(Clone, Copy)]
pub struct Wrote {
    all: bool,
    total: u64,
}

// A count goes round at 2^64, which no input reaches.
fn count_on(total: u64, more: usize) -> u64
    ensures { result ≡ counted total more }
{
    total.wrapping_add(more as u64)
}

// How many bytes of the block are there, of which len were before the read.
fn reach(said: Said, len: usize) -> usize
    ensures { result ≡ reached_by said len }
{
    if let Said::Bytes { len: more } = said {
        more
    } else {
        len
    }
}

// What an answer to a read says, behind the first len bytes.
#[tactic(auto, using(crate::proofs::Laws::ended_read, crate::proofs::Laws::bytes_read))]
fn answered(answer: io::Result<usize>, len: usize) -> Said
    requires { IfOk answer (λ count. len + count < 2 ^ 64) }
    ensures { result ≡ said_of answer len }
{
    match answer {
        Ok(0) => Said::End,
        Ok(count) => Said::Bytes { len: len + count },
        Err(_) => Said::Error,
    }
}

// Reads once, behind the first len bytes of the block; std's reader takes nothing ahead. A block with no room is an
// error: a read of no bytes would look like the input's end.
fn ask(rt: &impl Input, block: &mut [u8], len: usize) -> Said
    ensures block_unchanged { take len block.new ≡ take len block.old }
    ensures arrived { Arrived len (length block.old) result }
{
    if block.len() <= len {
        return Said::Error;
    }
    answered(rt.reader().read(&mut block[len..]), len)
}

impl Heard {
    // Before any read.
    pub fn nothing() -> Heard
        ensures { result ≡ nothing_heard }
    {
        Heard {
            said: Said::Nothing,
            total: 0,
        }
    }

    // Where no read is made.
    pub fn quiet(self) -> Heard
        ensures { result ≡ quiet_after self }
    {
        Heard {
            said: Said::Nothing,
            total: count_on(self.total, 0),
        }
    }

    // How many bytes of the block are there, of which len were before the read.
    pub fn reached(self, len: usize) -> usize
        ensures { result ≡ reached_by self.said len }
    {
        reach(self.said, len)
    }

    pub fn failed(self) -> bool
        ensures { result ≡ is_error self.said }
    {
        matches!(self.said, Said::Error)
    }

    // Reads once, behind the first len bytes of the block.
    pub fn read_more(self, rt: &impl Input, block: &mut [u8], len: usize) -> Heard
        ensures block_unchanged { take len block.new ≡ take len block.old }
        ensures arrived { Arrived len (length block.old) result.said × (result ≡ heard_after self result.said len) }
    {
        let said = ask(rt, block, len);
        let more = reach(said, len) - len;
        Heard {
            said,
            total: count_on(self.total, more),
        }
    }
}

// Tells on standard error, in a line, what failed. Where that fails too, there is nobody left to tell.
pub fn tell_failure(rt: &impl Eprint, failure: &str) {
    let _ = rt.eprintln(failure);
}

impl Wrote {
    // Before any text.
    pub fn nothing() -> Wrote
        ensures { result ≡ nothing_written }
    {
        Wrote {
            all: true,
            total: 0,
        }
    }

    // Text that stays in its buffer.
    pub fn kept(self) -> Wrote
        ensures { result ≡ kept_after self }
    {
        let total = count_on(self.total, 0);
        Wrote { total, ..self }
    }

    pub fn took_all(self) -> bool
        ensures { result ≡ self.all }
    {
        self.all
    }

    pub fn write(self, rt: &(impl Print + Eprint), text: &[u8]) -> Wrote
        ensures { result.total ≡ counted self.total (length text.now) }
    {
        let all = rt.write_all(text).is_ok();
        if !all {
            tell_failure(rt, "write failed");
        }
        Wrote {
            all,
            total: count_on(self.total, text.len()),
        }
    }
}
