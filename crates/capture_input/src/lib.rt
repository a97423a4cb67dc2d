// The entries of a capture on standard input, one at a time. Input arrives in large blocks: a system call for each entry
// would cost more than the entry.
#![tactic(auto)]

ghost use Rattle.std.specs.Prelude.{◌≡◌, false, ◌≤◌, length, take};
ghost use Rattle.capture.specs.Entry.{front_of};
ghost use Rattle.capture_input.specs.Entries.{nothing_read, waits_at, unread_in, More, Enough, Took, Because, Taken};
ghost use Rattle.standard_io.specs.System.{is_error};
ghost use Rattle.capture_input.specs.declared.Stop.TheVariants.{Ended};

use capture::{Ending, Entry};
use standard_io::Heard;

// Why no entry was taken: the capture ends, or a read failed.
#[derive(Clone, Copy)]
pub enum Stop {
    Ended(Ending),
    Failed,
}

impl From<Ending> for Stop {
    ghost from_gives = { λ ending stop. stop ≡ Ended ending };

    fn from(ending: Ending) -> Stop {
        Stop::Ended(ending)
    }
}

// Whether more input could make an entry of these bytes.
fn waits(s: &[u8]) -> bool
    ensures { result ≡ waits_at (front_of s.now) }
{
    matches!(capture::parse_entry(s), Err(Ending::Cut | Ending::End))
}

// What is left of a block of input, and what the system said to the last read.
// The block itself is lent beside it, for `Ran` speaks of the block that the program hands over.
#[derive(Clone, Copy)]
pub struct Unread {
    pub start: usize,
    pub len: usize,
    pub heard: Heard,
}

impl Unread {
    // Before any read.
    pub fn nothing() -> Unread
        ensures { result ≡ nothing_read }
    {
        Unread {
            start: 0,
            len: 0,
            heard: Heard::nothing(),
        }
    }

    // Reads until the block's front is an entry, or can become none. Its first len bytes are unread.
    fn read_entry(rt: &impl Input, block: &mut [u8], len: usize, before: Heard) -> Unread
        requires { len ≤ length block.old }
        ensures more { More (take len block.old) (unread_in block.new result) before result.heard }
        ensures enough { Enough result.heard.said (front_of (unread_in block.new result)) }
    {
        let mut len = len;
        let mut heard = before.quiet();
        while waits(&block[0..len]) {
            heard = heard.read_more(rt, block, len);
            let more = heard.reached(len);
            if more <= len {
                break;
            }
            len = more;
        }
        Unread {
            start: 0,
            len,
            heard,
        }
    }

    // As many bytes as a next entry needs, if they are to be had.
    fn fill(self, rt: &impl Input, block: &mut [u8]) -> Unread
        ensures more { More (unread_in block.old self) (unread_in block.new result) self.heard result.heard }
        ensures enough { Enough result.heard.said (front_of (unread_in block.new result)) }
    {
        let start = self.start;
        let len = wire::part(block, start, self.len).len();
        if len == 0 {
            return Unread::read_entry(rt, block, 0, self.heard);
        }
        if waits(&block[start..start + len]) {
            block.copy_within(start..start + len, 0);
            return Unread::read_entry(rt, block, len, self.heard);
        }
        Unread {
            heard: self.heard.quiet(),
            ..self
        }
    }

    // Takes the entry at the front, where no more input can make one.
    fn take_entry(&mut self, block: &[u8], entry: &mut [u8]) -> Result<usize, Stop>
        requires enough { Enough self.old.heard.said (front_of (unread_in block.now self.old)) }
        requires said_value { is_error self.old.heard.said ≡ false }
        ensures took { Took (unread_in block.now self.old) result (unread_in block.now self.new) entry.old entry.new }
        ensures because { Because result self.old.heard.said × (self.new.heard ≡ self.old.heard) }
    {
        let s = wire::part(block, self.start, self.len);
        let Entry { start, len } = capture::parse_entry(s)?;
        let end = start + len;
        wire::copy(entry, 0, &s[start..end]);
        self.start += end;
        self.len -= end;
        Ok(len)
    }

    // Takes the next entry into `entry`, and says how long it is. What is left unread is in `block`, where more input is read
    // if need be.
    pub fn next_entry(
        &mut self,
        rt: &impl Input,
        block: &mut [u8],
        entry: &mut [u8],
    ) -> Result<usize, Stop>
        ensures { Taken (unread_in block.old self.old) result self.old.heard self.new.heard (unread_in block.new self.new) entry.old entry.new }
    {
        *self = self.fill(rt, block);
        if self.heard.failed() {
            return Err(Stop::Failed);
        }
        self.take_entry(block, entry)
    }
}
