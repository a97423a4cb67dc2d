// Reads a capture on standard input, and tells of each entry in words what both readers find.
#![tactic(auto)]

ghost use Rattle.std.specs.Prelude.{◌≡◌, ◌+◌, ◌≤◌, ◌<◌, length};
ghost use Rattle.text.specs.Put.{Put};
ghost use Rattle.turns.specs.Run.{Ran};
ghost use Rattle.why.specs.Why.{reader_text, entry_line, telling};

use pdu::Edition;
use text::Text;
use turns::{BLOCK, State, Teller};

// What one reader finds.
fn put_reader(out: &mut Text, words: &[u8], datagram: &[u8], edition: Edition)
    ensures put { Put out.old out.new (reader_text words.now edition datagram.now) }
    ensures datagram_in_bounds { length (reader_text words.now edition datagram.now) ≤ length words.now + 244 }
{
    let told = failed_check::tell(datagram, edition);
    out.put(words);
    finding_text::put_finding(out, datagram, told);
}

// The line of entry n.
fn put_entry(out: &mut Text, n: u64, datagram: &[u8])
    ensures put { Put out.old out.new (entry_line n datagram.now) }
    ensures datagram_len_bound { length (entry_line n datagram.now) ≤ 560 }
{
    out.put_decimal(n);
    put_reader(out, b" present reader: ", datagram, Edition::E2018);
    put_reader(out, b"; 2009 reader: ", datagram, Edition::E2009);
    out.put(b"\n");
}

// It remembers nothing: a line tells its entry, by the number that it is handed.
#[derive(Clone, Copy)]
struct Explainer;

impl Teller for Explainer {
    ghost knows = { λ telling_by program past. telling_by ≡ telling };

    fn put_line(&mut self, out: &mut Text, n: u64, datagram: &[u8]) {
        put_entry(out, n, datagram);
    }

    // Nothing stands before the last line.
    fn put_end(&self, out: &mut Text) {
        out.put(b"");
    }
}

// The whole program, over any buffers; `told` is of those that hold an entry with its length, and a line.
fn run(rt: &(impl Input + Print + Eprint), block: &mut [u8], out: &mut Text) -> State
    ensures { Ran telling block.old out.old block.new out.new result }
{
    turns::run_program(rt, &mut Explainer, block, out)
}

fn main(rt: HostRuntime) {
    let mut block = [0; BLOCK];
    let mut out = [0; BLOCK];
    run(&rt, &mut block, &mut Text::new(&mut out));
}
