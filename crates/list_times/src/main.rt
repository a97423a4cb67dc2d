// One kind of work over the list of all 65,536 universes, again and again: standard input has its letter and eight
// digits, the number of rounds. A round of w writes all pages, one of c collects them, and one of j feeds the last page
// to a collector that has all. Prints a number over what came out.
#![tactic(auto)]

use page_collector::{Answer, Collector};
use std::io;
use std::io::Read;

const UNIVERSES: usize = 0x1_0000;

const PAGES: usize = 128;

const LAST_PAGE: usize = PAGES - 1;

// The bytes of a full page.
const ROOM: usize = 1144;

const ALL_ROOM: usize = PAGES * ROOM;

const CID: [u8; 16] = [1, 2, 3, 4, 5, 6, 7, 8, 9, 10, 11, 12, 13, 14, 15, 16];

const INPUT: usize = 9;

const DIGITS: usize = INPUT - 1;

// Put into the list before a join, which has to write over it.
const SPOILT: u16 = 0xffff;

// The sum is below the modulus; that it has 32 bits is only said for the product.
fn mix(sum: u64, value: u32) -> u64 {
    (sum % 0x1_0000_0000 * 31 + value as u64) % 4_294_967_291
}

fn mix_bytes(start: u64, bytes: &[u8]) -> u64 {
    bytes.iter().fold(start, |sum, b| mix(sum, u32::from(*b)))
}

fn mix_list(start: u64, list: &[u16]) -> u64 {
    list.iter().fold(start, |sum, u| mix(sum, u32::from(*u)))
}

fn universe(i: usize) -> u16 {
    (i % UNIVERSES) as u16
}

fn fill(list: &mut [u16]) {
    for (i, u) in list.iter_mut().enumerate() {
        *u = universe(i);
    }
}

// Each round has another CID, so that it writes other bytes than the one before it.
fn cid_of(round: usize) -> [u8; 16] {
    let mut cid = CID;
    cid[0] = (round % 0x100) as u8;
    cid
}

// Writes a page at its place among the packets, and tells its length, or 0 where it is refused.
fn write_page(packets: &mut [u8], cid: [u8; 16], page: usize, universes: &[u16]) -> u32 {
    let page = page % PAGES;
    let at = ROOM * page;
    let end = at + ROOM;
    if packets.len() < end {
        return 0;
    }
    let packed = universe_pages::pack_page(
        &mut packets[at..end],
        cid,
        page as u8,
        b"desk",
        universes,
    );
    (packed.unwrap_or(0) % 0x1_0000) as u32
}

fn write_pages(start: u64, packets: &mut [u8], cid: [u8; 16], universes: &[u16]) -> u64 {
    let mut sum = start;
    for page in 0..PAGES {
        sum = mix(sum, write_page(packets, cid, page, universes));
    }
    sum
}

// A byte of each round counts, and at the end all.
fn write_rounds(rounds: usize, packets: &mut [u8], universes: &[u16]) -> u64 {
    let mut sum = 0;
    for round in 0..rounds {
        sum = write_pages(sum, packets, cid_of(round), universes);
        sum = mix(sum, u32::from(wire::byte_at(packets, round % ALL_ROOM)));
    }
    mix_bytes(sum, packets)
}

fn spoil(list: &mut [u16], round: usize) {
    let at = round % UNIVERSES;
    if at < list.len() {
        list[at] = SPOILT;
    }
}

fn universe_at(list: &[u16], round: usize) -> u16 {
    let at = round % UNIVERSES;
    if at < list.len() { list[at] } else { 0 }
}

fn count_of(answer: Answer) -> u32 {
    match answer {
        Ok(Some(count)) => (count % 0x100_0000) as u32,
        Ok(None) | Err(_) => 0,
    }
}

// What a join gave: how many universes, and the one that was spoilt before.
fn mix_joined(sum: u64, answer: Answer, list: &[u16], round: usize) -> u64 {
    mix(
        mix(sum, count_of(answer)),
        u32::from(universe_at(list, round)),
    )
}

// A collector, the packets of all pages, and what the collector is lent.
#[derive(Drop)]
struct Bench<'a> {
    collector: Collector,
    packets: &'a [u8],
    memory: &'a mut [u16],
    list: &'a mut [u16],
}

impl<'a> Bench<'a> {
    fn feed(&mut self, page: usize) -> Answer {
        let at = ROOM * (page % PAGES);
        let packet = wire::part(self.packets, at, ROOM);
        self.collector.collect(packet, self.memory, self.list)
    }

    // All pages, to a fresh collector: the last completes the list.
    fn feed_all(&mut self) -> Answer {
        self.collector = Collector::new(CID);
        for page in 0..LAST_PAGE {
            let _ = self.feed(page);
        }
        self.feed(LAST_PAGE)
    }

    // A round spoils a universe of the list, and then feeds what writes over it.
    fn rounds<F: Fn(&mut Bench<'a>) -> Answer>(&mut self, rounds: usize, feed: F) -> u64
        requires { F.IsAlwaysCallable feed }
    {
        let mut sum = 0;
        for round in 0..rounds {
            spoil(self.list, round);
            let answer = feed(self);
            sum = mix_joined(sum, answer, self.list, round);
        }
        mix_list(sum, self.list)
    }
}

fn digit(byte: u8) -> u8 {
    if byte < b'0' { 0 } else { byte - b'0' }
}

fn number(digits: &[u8]) -> usize {
    digits
        .iter()
        .fold(0, |n, b| n % 10_000_000 * 10 + digit(*b) as usize)
}

// Writes all pages, and works with them at a bench with room for the list.
fn at_bench<F: FnOnce(&mut Bench) -> u64>(packets: &mut [u8], universes: &[u16], work: F) -> u64
    requires { F.IsAlwaysCallable work }
{
    write_pages(0, packets, CID, universes);
    let mut bench = Bench {
        collector: Collector::new(CID),
        packets,
        memory: &mut [0; UNIVERSES],
        list: &mut [0; UNIVERSES],
    };
    work(&mut bench)
}

// Any other letter is taken for j.
fn run(letter: u8, rounds: usize, packets: &mut [u8], universes: &[u16]) -> u64 {
    match letter {
        b'w' => write_rounds(rounds, packets, universes),
        b'c' => at_bench(packets, universes, |bench| {
            bench.rounds(rounds, |b| b.feed_all())
        }),
        _ => at_bench(packets, universes, |bench| {
            let _ = bench.feed_all();
            bench.rounds(rounds, |b| b.feed(LAST_PAGE))
        }),
    }
}

// Fills the buffer from standard input, as far as the input goes. Each read but the last brings a byte or more.
fn read_full(rt: &impl Input, buf: &mut [u8]) -> io::Result<()> {
    let mut reader = rt.reader();
    let mut done = 0;
    for _ in 0..buf.len() {
        let count = reader.read(&mut buf[done..])?;
        if count == 0 {
            break;
        }
        done += count;
    }
    Ok(())
}

fn main(rt: HostRuntime) -> io::Result<()> {
    let mut input = [b'0'; INPUT];
    read_full(&rt, &mut input)?;
    let mut universes = [0; UNIVERSES];
    fill(&mut universes);
    let mut packets = [0; ALL_ROOM];
    let rounds = number(wire::part(&input, 1, DIGITS));
    let sum = run(input[0], rounds, &mut packets, &universes);
    println!(rt; "{sum}")
}
