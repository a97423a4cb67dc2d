// Lists of ours, whose pages come in another order than theirs, some of them twice, each with a page of another desk behind.
use crate::{Bench, CID, LINE_ROOM, OTHER_CID, SPOILT};
use page_collector::Answer;
use std::io;
use text::Text;

const MOST_UNIVERSES: usize = 63_999;

const MOST_TURNS: usize = 1000;

const STEP: usize = 7;

const FIRST: usize = 3;

// How many pages were kept, how often all were there, how many of another desk were refused; and how many universes the
// last list had.
#[derive(Clone, Copy, Default)]
struct Tally {
    kept: u64,
    lists: u64,
    refused: u64,
    count: usize,
}

// Counts stay far below this.
fn one_more(n: u64) -> u64 {
    if n < 1_000_000 { n + 1 } else { n }
}

fn counted(tally: Tally, answer: Answer) -> Tally {
    match answer {
        Ok(None) => Tally {
            kept: one_more(tally.kept),
            ..tally
        },
        Ok(Some(count)) => Tally {
            lists: one_more(tally.lists),
            count,
            ..tally
        },
        Err(_) => Tally {
            refused: one_more(tally.refused),
            ..tally
        },
    }
}

// The page of turn i: every other one is sent twice in a row, and all have two turns. They are sent in steps of seven,
// which divides none of the numbers of pages, so that each page has its turn.
fn page_at(i: usize, pages: usize) -> u8 {
    if pages == 0 {
        return 0;
    }
    let turn = i % MOST_TURNS * 2 / 3;
    ((STEP * turn + FIRST) % pages % 256) as u8
}

// Whether the list that came out is the one that was sent.
fn same(sent: &[u16], list: &[u16]) -> bool {
    list.starts_with(sent)
}

fn put_tally(out: &mut Text, tally: Tally) {
    out.put_field(b": kept ", tally.kept);
    out.put_field(b", list ", tally.lists);
    out.put_field(b", another desk refused ", tally.refused);
    out.put_field(b"; at last a list of ", tally.count as u64);
}

// Whether the list is the one that was sent, in its length, too, and nothing behind it was touched.
fn came_back(sent: &[u16], count: usize, list: &[u16]) -> bool {
    if count != sent.len() {
        return false;
    }
    if count < list.len() {
        if list[count] != SPOILT {
            return false;
        }
    }
    same(sent, list)
}

// The first number of the list and its last one.
fn put_ends(out: &mut Text, count: usize, list: &[u16]) {
    if count == 0 || list.len() < count {
        return;
    }
    out.put_field(b", from ", list[0] as u64);
    out.put_field(b" to ", list[count - 1] as u64);
}

fn put_verdict(out: &mut Text, same: bool) {
    out.put(if same {
        b", as it was sent"
    } else {
        b", and not what was sent"
    });
}

impl<'a, P: Print> Bench<'a, P> {
    // A page of ours, and the same page of another desk.
    fn turn(&mut self, tally: Tally, page: u8, sent: &[u16]) -> Tally {
        let ours = self.feed(&crate::packed(CID, page, sent));
        let theirs = self.feed(&crate::packed(OTHER_CID, page, sent));
        counted(counted(tally, ours), theirs)
    }

    fn collected(&mut self, sent: &[u16], turns: usize, pages: usize) -> Tally {
        self.start_afresh();
        let mut tally = Tally::default();
        for i in 0..turns {
            tally = self.turn(tally, page_at(i, pages), sent);
        }
        tally
    }

    // A list of n universes, which makes so many pages.
    fn trip(&mut self, all: &[u16], n: usize, pages: u8) -> io::Result<()> {
        let sent = crate::first(all, n);
        let pages = pages as usize;
        let turns = 3 * pages;
        self.list.fill(SPOILT);
        let tally = self.collected(sent, turns, pages);
        let mut line = [0; LINE_ROOM];
        let mut out = Text::new(&mut line);
        out.put_field(b"universes ", sent.len() as u64);
        out.put_field(b", pages ", pages as u64);
        out.put_field(b", fed ", turns as u64);
        put_tally(&mut out, tally);
        put_ends(&mut out, tally.count, self.list);
        put_verdict(&mut out, came_back(sent, tally.count, self.list));
        crate::end_line(self.rt, &mut out)
    }

    pub(crate) fn lists(&mut self) -> io::Result<()> {
        let mut all = [0; MOST_UNIVERSES];
        crate::fill_ascending(&mut all);
        self.trip(&all, 0, 1)?;
        self.trip(&all, 1, 1)?;
        self.trip(&all, 512, 1)?;
        self.trip(&all, 513, 2)?;
        self.trip(&all, 1024, 2)?;
        self.trip(&all, MOST_UNIVERSES, 125)
    }
}
