// Reads a capture on standard input and follows its sequence numbers: a line on standard output tells what became of
// each entry, and the totals stand before the last line.
#![tactic(auto)]

ghost use Rattle.std.specs.Prelude.{◌≡◌, ◌+◌, ◌≤◌, ◌<◌, length};
ghost use Rattle.text.specs.Put.{Put};
ghost use Rattle.line.specs.Lines.{refused_line};
ghost use Rattle.follow_rules.specs.Table.{cleared};
ghost use Rattle.turns.specs.Run.{Ran};
ghost use Rattle.follow.specs.Lines.{word_line, became_line, totals_line};
ghost use Rattle.follow.specs.Following.{follows, following};

use follow_rules::{Answer, Entry, Totals};
use refusal::Refusal;
use text::Text;
use turns::{BLOCK, State, Teller};

// The table has room for so many sources.
const SOURCES: usize = 1024;

// The table, and the totals after the entries that are behind.
#[derive(Clone, Copy)]
struct Follower {
    table: [Entry; SOURCES],
    totals: Totals,
}

fn put_word(out: &mut Text, n: u64, word: &[u8])
    ensures { Put out.old out.new (word_line n word.now) }
{
    out.put_decimal(n);
    out.put(word);
}

// A refusal's line, and that it is short, whatever the numbers are that the refusal holds.
fn put_refused(out: &mut Text, n: u64, refusal: Refusal)
    ensures put { Put out.old out.new (refused_line n refusal) }
    ensures refusal_len_bound { length (refused_line n refusal) ≤ 200 }
{
    line::put_refused(out, n, refusal);
}

// The line of entry n.
fn put_became(out: &mut Text, n: u64, answer: Answer)
    ensures put { Put out.old out.new (became_line n answer) }
    ensures answer_len_bound { length (became_line n answer) ≤ 200 }
{
    match answer {
        Answer::Accepted => put_word(out, n, b" accepted\n"),
        Answer::Discarded => put_word(out, n, b" discarded\n"),
        Answer::Refused(r) => put_refused(out, n, r),
        Answer::NotData => put_word(out, n, b" other\n"),
        Answer::Unreadable(r) => put_refused(out, n, r),
    }
}

fn put_totals(out: &mut Text, totals: Totals)
    ensures put { Put out.old out.new (totals_line totals) }
    ensures totals_len_bound { length (totals_line totals) ≤ 200 }
{
    out.put_field(b"totals accepted ", totals.accepted);
    out.put_field(b" discarded ", totals.discarded);
    out.put_field(b" room-refused ", totals.room_refused);
    out.put(b"\n");
}

impl Teller for Follower {
    ghost knows = { follows };

    fn put_line(&mut self, out: &mut Text, n: u64, datagram: &[u8]) {
        let totals = self.totals;
        let followed = follower::follow(&mut self.table, totals, datagram);
        self.totals = followed.totals;
        put_became(out, n, followed.answer);
    }

    fn put_end(&self, out: &mut Text) {
        put_totals(out, self.totals);
    }
}

// The whole program: entries are followed in a table that is cleared. `followed` is of buffers that hold an entry with its
// length, and a line.
fn run(rt: &(impl Input + Print + Eprint), block: &mut [u8], out: &mut Text) -> State
    ensures { Ran (following (cleared 1024)) block.old out.old block.new out.new result }
{
    let mut program = Follower {
        table: [Entry::free(); SOURCES],
        totals: Totals::zero(),
    };
    turns::run_program(rt, &mut program, block, out)
}

fn main(rt: HostRuntime) {
    let mut block = [0; BLOCK];
    let mut out = [0; BLOCK];
    run(&rt, &mut block, &mut Text::new(&mut out));
}
