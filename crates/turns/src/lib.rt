// What every program over a capture does: it takes one entry after the other, writes text where the next line might not
// fit behind it, and puts the last line. A program adds the line of an entry, and what stands before the last line.
#![tactic(auto)]

ghost use Rattle.std.specs.Prelude.{◌≡◌, ◌<◌, ℕ, List, min, length};
ghost use Rattle.text.specs.Put.{Put, emptied};
ghost use Rattle.standard_io.specs.System.{counted};
ghost use Rattle.turns.specs.Turn.{begun, last_text, TakenFrom, WentOn, Finished, Telling};
ghost use Rattle.turns.specs.Teller.{LineTold, EndTold, TurnTold, RunTold};

use capture::LONGEST_ENTRY;
use capture_input::{Stop, Unread};
use standard_io::Wrote;
use text::Text;

// A count that no input reaches.
pub const MOST_ENTRIES: u64 = 0xffff_ffff_ffff_ffff;

// So much is read or written at a time.
pub const BLOCK: usize = 65536;

// The longest line is shorter: two digits for each byte of an entry, and some words.
pub const LINE_ROOM: usize = 40000;

// What a program tells of a capture, and what it remembers for that.
pub trait Teller {
    // That it tells by this telling, and that these entries are behind it.
    ghost knows: { Telling → Self → List (List ℕ) → Type 0 };

    // Puts the line of entry n.
    fn put_line(&mut self, out: &mut Text, n: u64, datagram: &[u8])
        ensures { LineTold knows self.old self.new out.old out.new n datagram.now };

    // Puts what stands before the last line.
    fn put_end(&self, out: &mut Text)
        ensures { EndTold knows self.now out.old out.new };
}

// Between two entries. The text that is not written yet stands beside it.
#[derive(Clone, Copy)]
pub struct State {
    pub unread: Unread,
    pub wrote: Wrote,
    pub going: bool,
}

// Hands all text to the system.
fn flush(rt: &(impl Print + Eprint), out: &mut Text, wrote: Wrote) -> Wrote
    ensures handed { result.total ≡ counted wrote.total (min out.old.len (length out.old.bytes.now)) }
    ensures empty { out.new ≡ emptied out.old }
{
    let wrote = wrote.write(rt, out.written());
    out.clear();
    wrote
}

// The last line, after n whole entries; none after a read that failed.
fn put_last(rt: &impl Eprint, out: &mut Text, next: Result<usize, Stop>, n: u64)
    ensures { Put out.old out.new (last_text next n) }
{
    match next {
        Err(Stop::Ended(ending)) => line::put_last_line(out, ending, n),
        Err(Stop::Failed) => {
            standard_io::tell_failure(rt, "read failed");
            out.put(b"");
        }
        Ok(_) => out.put(b""),
    }
}

impl State {
    // Before the first entry.
    pub fn begin() -> State
        ensures { result ≡ begun }
    {
        State {
            unread: Unread::nothing(),
            wrote: Wrote::nothing(),
            going: true,
        }
    }

    // Takes the next entry into `entry`, if there is one, and says how long it is. What is left unread is in `block`.
    pub fn take(
        &mut self,
        rt: &impl Input,
        block: &mut [u8],
        entry: &mut [u8],
    ) -> Result<usize, Stop>
        ensures { TakenFrom block.old block.new entry.old entry.new self.old result self.new }
    {
        self.unread.next_entry(rt, block, entry)
    }

    // After a line: writes the text where the next line might not fit behind it. The program goes on unless the system
    // did not take all text.
    pub fn go_on(&mut self, rt: &(impl Print + Eprint), out: &mut Text)
        ensures { WentOn out.old out.new self.old self.new }
    {
        if LINE_ROOM <= out.bytes.len().saturating_sub(out.len) {
            self.wrote = self.wrote.kept();
        } else {
            self.wrote = flush(rt, out, self.wrote);
        }
        self.going = self.wrote.took_all();
    }

    // Where no entry comes next: puts the last line, after n whole entries, and writes all text.
    // Any answer of `take` is allowed, as `Finished` says: after an entry no line is put.
    pub fn finish(
        &mut self,
        rt: &(impl Print + Eprint),
        out: &mut Text,
        next: Result<usize, Stop>,
        n: u64,
    )
        ensures { Finished out.old out.new next n self.old self.new }
    {
        put_last(rt, out, next, n);
        *self = State {
            unread: Unread {
                start: 0,
                len: 0,
                heard: self.unread.heard,
            },
            wrote: flush(rt, out, self.wrote),
            going: false,
        };
    }
}

// What follows n entries.
fn turn<P: Teller>(
    rt: &(impl Input + Print + Eprint),
    program: &mut P,
    state: &mut State,
    block: &mut [u8],
    entry: &mut [u8],
    out: &mut Text,
    n: u64,
)
    requires { (n < 0xffff_ffff_ffff_ffff) × (length entry.old ≡ 8192) }
    ensures { TurnTold P.knows program.old program.new n state.old state.new block.old block.new out.old out.new }
{
    let next = state.take(rt, block, entry);
    match next {
        Ok(len) => {
            program.put_line(out, n + 1, wire::part(entry, 0, len));
            state.go_on(rt, out);
        }
        Err(Stop::Ended(_)) => {
            program.put_end(out);
            state.finish(rt, out, next, n);
        }
        Err(Stop::Failed) => state.finish(rt, out, next, n),
    }
}

// A whole program: turns until one stops. The buffer holds the longest entry.
pub fn run_program<P: Teller>(
    rt: &(impl Input + Print + Eprint),
    program: &mut P,
    block: &mut [u8],
    out: &mut Text,
) -> State
    ensures { RunTold P.knows program.old block.old block.new out.old out.new result }
{
    let mut entry = [0; LONGEST_ENTRY];
    let mut state = State::begin();
    out.clear();
    for n in 0..MOST_ENTRIES {
        if !state.going {
            break;
        }
        turn(rt, program, &mut state, block, &mut entry, out, n);
    }
    state
}
