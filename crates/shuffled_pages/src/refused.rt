// What is refused, by the page writer and by the collector, with what stays as it was.
use crate::{Bench, CID, LINE_ROOM, OTHER_CID, PACKET_ROOM};
use extended::synchronization::SynchronizationFields;
use page_collector::Answer;
use refusal::Refusal;
use std::io;
use text::Text;

// Two pages, and one universe on a third.
const MANY: usize = 1025;

fn put_packed(out: &mut Text, packed: Result<usize, Refusal>) {
    match packed {
        Ok(n) => out.put_field(b" written ", n as u64),
        Err(r) => field_text::put_refusal(out, r),
    }
}

// Asks for a page, into a buffer of so many bytes.
fn write(
    rt: &impl Print,
    words: &[u8],
    room: usize,
    page: u8,
    name: &[u8],
    universes: &[u16],
) -> io::Result<()> {
    let mut packet = [0; PACKET_ROOM];
    let room = wire::least(room, PACKET_ROOM);
    let packed = universe_pages::pack_page(&mut packet[0..room], CID, page, name, universes);
    let mut line = [0; LINE_ROOM];
    let mut out = Text::new(&mut line);
    out.put(words);
    put_packed(&mut out, packed);
    crate::end_line(rt, &mut out)
}

// How many pages a list has.
fn numbers_of_pages(rt: &impl Print, many: &[u16]) -> io::Result<()> {
    write(rt, b"page 0 of none:", PACKET_ROOM, 0, b"", &[])?;
    write(rt, b"page 1 of none:", PACKET_ROOM, 1, b"", &[])?;
    let full = crate::first(many, 512);
    write(rt, b"page 0 of 512:", PACKET_ROOM, 0, b"", full)?;
    write(rt, b"page 1 of 512:", PACKET_ROOM, 1, b"", full)?;
    let both_full = crate::first(many, 1024);
    write(rt, b"page 1 of 1024:", PACKET_ROOM, 1, b"", both_full)?;
    write(rt, b"page 2 of 1024:", PACKET_ROOM, 2, b"", both_full)?;
    write(rt, b"page 2 of 1025:", PACKET_ROOM, 2, b"", many)?;
    write(rt, b"page 255 of 1025:", PACKET_ROOM, 255, b"", many)
}

// 47, and then 20 to 23.
fn faults_of_a_packet(rt: &impl Print, many: &[u16]) -> io::Result<()> {
    write(rt, b"no room and page 3:", 0, 3, b"\0", many)?;
    write(rt, b"a byte too little room:", 121, 2, b"\0", many)?;
    write(rt, b"a name of 64 bytes:", 122, 2, &[b'n'; 64], many)?;
    write(rt, b"a name with a zero:", 122, 2, b"a\0\xff", many)?;
    write(rt, b"a name that breaks off:", 122, 2, b"ab\xc3", many)?;
    write(rt, b"just room:", 122, 2, b"ab\xc3\xa9", many)
}

// 25 and 26 come first, also for a page without the fault and for none.
fn faults_of_the_list(rt: &impl Print, words: &[u8], many: &[u16]) -> io::Result<()> {
    write(rt, words, PACKET_ROOM, 0, b"", many)?;
    write(rt, words, 0, 3, b"\0", many)
}

fn tell(rt: &impl Print, words: &[u8], answer: Answer) -> io::Result<()> {
    let mut line = [0; LINE_ROOM];
    let mut out = Text::new(&mut line);
    out.put(words);
    crate::put_answer(&mut out, answer);
    crate::end_line(rt, &mut out)
}

impl<'a, P: Print> Bench<'a, P> {
    // Feeds a datagram and tells what became of it.
    fn feed_told(&mut self, words: &[u8], datagram: &[u8]) -> io::Result<()> {
        let answer = self.feed(datagram);
        tell(self.rt, words, answer)
    }

    // What is no page.
    fn feed_others(&mut self) -> io::Result<()> {
        let mut packet = [0; 49];
        let fields = SynchronizationFields {
            sequence_number: 7,
            synchronization_address: 8000,
        };
        let _ = pack::pack_synchronization(&mut packet, CID, fields);
        self.feed_told(b"a sync packet:", &packet)?;
        self.feed_told(b"nothing:", b"")
    }

    fn feed_another_desk(&mut self, sent: &[u16]) -> io::Result<()> {
        let packet = crate::packed(OTHER_CID, 0, sent);
        let answer = self.collector.collect(&packet, &mut [], &mut []);
        tell(self.rt, b"another desk, no room:", answer)
    }

    // One number less than two pages need.
    fn feed_without_room(&mut self, sent: &[u16]) -> io::Result<()> {
        let packet = crate::packed(CID, 0, sent);
        let mut less = [0; 1023];
        let answer = self.collector.collect(&packet, &mut less, self.list);
        tell(self.rt, b"memory of 1023:", answer)?;
        let answer = self.collector.collect(&packet, self.memory, &mut less);
        tell(self.rt, b"list of 1023:", answer)
    }

    // What is refused between two pages, and moves nothing.
    fn collecting(&mut self, sent: &[u16]) -> io::Result<()> {
        self.start_afresh();
        self.feed_told(b"page 1 of 513:", &crate::packed(CID, 1, sent))?;
        self.feed_others()?;
        self.feed_another_desk(sent)?;
        self.feed_without_room(sent)?;
        self.feed_told(b"page 0 of 513:", &crate::packed(CID, 0, sent))
    }

    pub(crate) fn refused_cases(&mut self) -> io::Result<()> {
        let mut many = [0; MANY];
        crate::fill_ascending(&mut many);
        numbers_of_pages(self.rt, &many)?;
        faults_of_a_packet(self.rt, &many)?;
        many[1024] = 1024;
        faults_of_the_list(
            self.rt,
            b"equal on page 2, page 0 or no page asked for:",
            &many,
        )?;
        many[1024] = 7;
        faults_of_the_list(
            self.rt,
            b"falling on page 2, page 0 or no page asked for:",
            &many,
        )?;
        self.collecting(crate::first(&many, 513))
    }
}
