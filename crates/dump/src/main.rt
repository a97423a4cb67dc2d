// Reads a capture on standard input, and tells each entry in a line on standard output.
#![tactic(auto)]

ghost use Rattle.std.specs.Prelude.{◌≡◌, ◌+◌, ◌*◌, ◌≤◌, ◌<◌, length};
ghost use Rattle.text.specs.Put.{Put};
ghost use Rattle.turns.specs.Run.{Ran};
ghost use Rattle.dump.specs.Dump.{entry_line, dumping};

use text::Text;
use turns::{BLOCK, State, Teller};

// The line of entry n.
fn put_entry(out: &mut Text, n: u64, datagram: &[u8])
    ensures put { Put out.old out.new (entry_line n datagram.now) }
    ensures datagram_len_bound { length (entry_line n datagram.now) ≤ 2 * length datagram.now + 174 }
{
    let reading = packet::parse(datagram);
    line::put_line(out, n, datagram, reading);
}

// It remembers nothing: a line tells its entry, by the number that it is handed.
#[derive(Clone, Copy)]
struct Dumper;

impl Teller for Dumper {
    ghost knows = { λ telling_by program past. telling_by ≡ dumping };

    fn put_line(&mut self, out: &mut Text, n: u64, datagram: &[u8]) {
        put_entry(out, n, datagram);
    }

    // Nothing stands before the last line.
    fn put_end(&self, out: &mut Text) {
        out.put(b"");
    }
}

// The whole program, over any buffers; `dumped` is of those that hold an entry with its length, and a line.
fn run(rt: &(impl Input + Print + Eprint), block: &mut [u8], out: &mut Text) -> State
    ensures { Ran dumping block.old out.old block.new out.new result }
{
    turns::run_program(rt, &mut Dumper, block, out)
}

fn main(rt: HostRuntime) {
    let mut block = [0; BLOCK];
    let mut out = [0; BLOCK];
    run(&rt, &mut block, &mut Text::new(&mut out));
}
