// The pages of one sender's universe list, collected in lent memory, and the list, joined once all are there.
#![tactic(auto)]

mod join;
mod keep;

ghost use Rattle.std.specs.Prelude.{◌≡◌, ◌≤◌, length};
ghost use Rattle.discovery.specs.Universes.{all_universes};
ghost use Rattle.page_collector.specs.Collect.{after, collected_of, fresh, take_in, collect_of};

use discovery::DiscoveryFields;
use packet::Packet;
use refusal::Refusal;
use wire::constants::DISCOVERY_UNI_PER_PAGE;

// The collector's own refusals, numbers as in `refusal`. The last one keeps the page; the others move nothing.
pub const ANOTHER_CID: u8 = 42;

pub const NO_ROOM_FOR_PAGES: u8 = 43;

pub const LIST_NOT_ASCENDING: u8 = 44;

// What is known of one sender's pages: how many universes each has that is there.
#[derive(Clone, Copy)]
pub struct Collector {
    pub cid: [u8; 16],
    pub last_page: u8,
    pub counts: [Option<u16>; 256],
}

// What became of a datagram: how many universes the list has, once all its pages are there, or None as long as one is missing.
pub type Answer = Result<Option<usize>, Refusal>;

impl Collector {
    // A collector for one CID, without a page.
    pub fn new(cid: [u8; 16]) -> Collector
        ensures { result ≡ fresh cid }
    {
        Collector {
            cid,
            last_page: 0,
            counts: [None; 256],
        }
    }

    // A page, by its CID: 42 and 43 come before it is taken in. A struct for what a page has would serve this call alone.
    fn take_in(
        &mut self,
        cid: [u8; 16],
        fields: DiscoveryFields,
        universes: &[u8],
        memory: &mut [u16],
        list: &mut [u16],
    ) -> Answer
        requires page_bound { fields.page ≤ fields.last_page }
        requires universes_len_bound { length universes.now ≤ 1024 }
        ensures { after memory.new list.new (collected_of self.new result) ≡ take_in self.old cid fields (all_universes universes.now) memory.old list.old }
    {
        if !cid::same(self.cid, cid) {
            return refusal::refuse(ANOTHER_CID, refusal::NOWHERE, 0);
        }
        let pages = fields.last_page as usize + 1;
        if memory.len().min(list.len()) < DISCOVERY_UNI_PER_PAGE * pages {
            return refusal::refuse(NO_ROOM_FOR_PAGES, refusal::NOWHERE, 0);
        }
        self.keep(fields, universes, memory);
        join::join(&self.counts[..pages], memory, list)
    }

    // Reads a datagram, whatever it is, and takes in its page: any collector, any memory and any list may be handed in.
    pub fn collect(&mut self, datagram: &[u8], memory: &mut [u16], list: &mut [u16]) -> Answer
        ensures { after memory.new list.new (collected_of self.new result) ≡ collect_of self.old datagram.now memory.old list.old }
    {
        let reading = packet::parse(datagram);
        match reading.packet {
            Packet::Discovery(x) => {
                let universes = parts::shown(datagram, x.universes);
                self.take_in(reading.cid, x.fields, universes, memory, list)
            }
            // An arm for each other kind: must-fail/ tries a wrong number for one of them.
            Packet::Data(_) => refusal::refuse(refusal::NO_UNIVERSES_COPIED, refusal::NOWHERE, 0),
            Packet::Synchronization(_) => {
                refusal::refuse(refusal::NO_UNIVERSES_COPIED, refusal::NOWHERE, 0)
            }
            Packet::Refused(r) => Err(r),
        }
    }
}
