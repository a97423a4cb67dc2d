// Whole lists of universes, written page by page and collected again: what came out of pages that were shuffled and
// repeated, with pages of another desk between; of pages that other writers cut; and what is refused.
#![tactic(auto)]

mod foreign;
mod refused;
mod shuffled;

use page_collector::{Answer, Collector};
use std::io;
use text::Text;

const CID: [u8; 16] = [7; 16];

const OTHER_CID: [u8; 16] = [8; 16];

// Room for 256 pages, more than a list that ascends can fill.
const ROOM: usize = 131_072;

const PACKET_ROOM: usize = 1144;

const LINE_ROOM: usize = 256;

// What the lent list has before a list comes out, and behind it.
const SPOILT: u16 = 65_535;

// The first n numbers of a list.
pub(crate) fn first(list: &[u16], n: usize) -> &[u16] {
    &list[0..wire::least(n, list.len())]
}

// A list that ascends from 1, as far as numbers go.
pub(crate) fn fill_ascending(list: &mut [u16]) {
    for (i, n) in list.iter_mut().enumerate() {
        *n = (i % 65_535 + 1) as u16;
    }
}

// A page of a list, as a packet.
pub(crate) fn packed(cid: [u8; 16], page: u8, sent: &[u16]) -> [u8; PACKET_ROOM] {
    let mut packet = [0; PACKET_ROOM];
    let _ = universe_pages::pack_page(&mut packet, cid, page, b"desk", sent);
    packet
}

// A collector, what it is lent, and where its answers are told.
#[derive(Drop)]
pub(crate) struct Bench<'a, P: Print> {
    rt: &'a P,
    collector: Collector,
    memory: &'a mut [u16],
    list: &'a mut [u16],
}

impl<'a, P: Print> Bench<'a, P> {
    pub(crate) fn start_afresh(&mut self) {
        self.collector = Collector::new(CID);
    }

    pub(crate) fn feed(&mut self, datagram: &[u8]) -> Answer {
        self.collector.collect(datagram, self.memory, self.list)
    }
}

pub(crate) fn put_answer(out: &mut Text, answer: Answer) {
    match answer {
        Ok(None) => out.put(b" kept"),
        Ok(Some(count)) => out.put_field(b" list of ", count as u64),
        Err(r) => field_text::put_refusal(out, r),
    }
}

pub(crate) fn end_line(rt: &impl Print, out: &mut Text) -> io::Result<()> {
    out.put(b"\n");
    rt.write_all(out.written())
}

fn main(rt: HostRuntime) -> io::Result<()> {
    let mut bench = Bench {
        rt: &rt,
        collector: Collector::new(CID),
        memory: &mut [0; ROOM],
        list: &mut [0; ROOM],
    };
    bench.lists()?;
    bench.foreign_pages()?;
    bench.refused_cases()
}
