// Answers each request of a capture in a line, so that the library can be compared with another one: an
// entry's first byte says what is asked, and the bytes behind it are what it is asked of.
#![tactic(auto)]

mod address;
mod read;
mod write;

use text::Text;
use turns::{BLOCK, Teller};

// What is asked. Words are told as they are, for whoever reads the answers.
#[derive(Clone, Copy)]
enum Request {
    Read,
    Write(write::Kind),
    Address,
    Words,
}

// A request's first byte.
fn request_of(byte: u8) -> Option<Request> {
    match byte {
        0 => Some(Request::Read),
        1 => Some(Request::Write(write::Kind::Data)),
        2 => Some(Request::Write(write::Kind::Synchronization)),
        3 => Some(Request::Write(write::Kind::Discovery)),
        4 => Some(Request::Address),
        5 => Some(Request::Words),
        _ => None,
    }
}

fn put_words(out: &mut Text, words: &[u8]) {
    out.put(words);
    out.put(b"\n");
}

fn put_malformed(out: &mut Text, n: u64) {
    out.put_decimal(n);
    out.put(b" malformed\n");
}

// The answer to a request of a packet, into a buffer as long as was asked.
fn put_written(out: &mut Text, n: u64, kind: write::Kind, asked: &[u8]) {
    let room = write::room(asked);
    if write::MOST_ROOM < room {
        return put_malformed(out, n);
    }
    let mut space = [write::UNTOUCHED; write::MOST_ROOM];
    let buf = &mut space[0..room];
    let packed = write::pack(kind, asked, buf);
    write::put_packed(out, n, packed, buf);
}

// The answer to request n.
fn put_answer(out: &mut Text, n: u64, entry: &[u8]) {
    let [byte, asked @ ..] = entry else {
        return put_malformed(out, n);
    };
    match request_of(*byte) {
        Some(Request::Read) => read::put_reading(out, n, asked),
        Some(Request::Write(kind)) => put_written(out, n, kind, asked),
        Some(Request::Address) if 2 <= asked.len() => {
            address::put_address(out, n, wire::u16_at(asked, 0))
        }
        Some(Request::Words) => put_words(out, asked),
        _ => put_malformed(out, n),
    }
}

#[derive(Clone, Copy)]
struct Prober;

// Nothing is promised of a test program's lines, so there is no telling that it tells by.
impl Teller for Prober {
    ghost knows = { λ telling_by program past. ⊥ };

    fn put_line(&mut self, out: &mut Text, n: u64, datagram: &[u8]) {
        put_answer(out, n, datagram);
    }

    fn put_end(&self, out: &mut Text) {
        out.put(b"");
    }
}

fn main(rt: HostRuntime) {
    let mut block = [0; BLOCK];
    let mut out = [0; BLOCK];
    turns::run_program(&rt, &mut Prober, &mut block, &mut Text::new(&mut out));
}
