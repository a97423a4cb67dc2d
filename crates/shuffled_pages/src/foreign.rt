// Pages that other writers cut: short, empty, overlapping, and as many as there can be.
use crate::{Bench, CID, LINE_ROOM, PACKET_ROOM};
use discovery::DiscoveryFields;
use page_collector::Answer;
use std::io;
use text::Text;

// What is shown of a list.
const SHOWN: usize = 8;

fn put_numbers(out: &mut Text, list: &[u16]) {
    for n in list {
        out.put_field(b" ", *n as u64);
    }
}

// The first numbers of a list that came out.
fn put_front(out: &mut Text, answer: Answer, list: &[u16]) {
    if let Ok(Some(count)) = answer {
        out.put(b":");
        put_numbers(out, crate::first(list, wire::least(count, SHOWN)));
    }
}

impl<'a, P: Print> Bench<'a, P> {
    fn feed_foreign(&mut self, fields: DiscoveryFields, universes: &[u16]) -> Answer {
        let mut packet = [0; PACKET_ROOM];
        let _ = pack::pack_discovery(&mut packet, CID, fields, b"foreign", universes);
        self.feed(&packet)
    }

    // Feeds a page and tells what became of it.
    fn told(&mut self, page: u8, last_page: u8, universes: &[u16]) -> io::Result<()> {
        let answer = self.feed_foreign(DiscoveryFields { page, last_page }, universes);
        let mut line = [0; LINE_ROOM];
        let mut out = Text::new(&mut line);
        out.put_field(b"page ", page as u64);
        out.put_field(b" of 0 to ", last_page as u64);
        out.put(b":");
        crate::put_answer(&mut out, answer);
        put_front(&mut out, answer, self.list);
        crate::end_line(self.rt, &mut out)
    }

    // Short and empty pages.
    fn short_pages(&mut self) -> io::Result<()> {
        self.told(2, 2, &[5, 9])?;
        self.told(0, 2, &[1, 2])?;
        self.told(1, 2, &[])
    }

    // A page is replaced; then the last page's number changes, and changes back: each time all start afresh.
    fn other_pages(&mut self) -> io::Result<()> {
        self.told(1, 2, &[3])?;
        self.told(0, 0, &[0, 65535])?;
        self.told(1, 2, &[3])
    }

    // Pages that overlap are kept, and there is no list until they do not.
    fn overlapping_pages(&mut self) -> io::Result<()> {
        self.start_afresh();
        self.told(0, 1, &[1, 5])?;
        self.told(1, 1, &[5, 9])?;
        self.told(1, 1, &[6, 9])
    }

    // 256 pages with a universe on each, the last one first.
    fn most_pages(&mut self) -> io::Result<()> {
        self.start_afresh();
        for page in (1..=255).rev() {
            let fields = DiscoveryFields {
                page,
                last_page: 255,
            };
            let _ = self.feed_foreign(fields, &[200 * page as u16]);
        }
        self.told(0, 255, &[7])
    }

    pub(crate) fn foreign_pages(&mut self) -> io::Result<()> {
        self.start_afresh();
        self.short_pages()?;
        self.other_pages()?;
        self.overlapping_pages()?;
        self.most_pages()
    }
}
