// One page, kept in memory at its own place.
ghost use Rattle.std.specs.Prelude.{◌≡◌, ◌+◌, ◌*◌, ◌≤◌, length};
ghost use Rattle.discovery.specs.Universes.{all_universes};
ghost use Rattle.page_collector.specs.Collect.{collector_of, counts_for, keeping, memory_with};

use crate::Collector;
use discovery::DiscoveryFields;
use wire::constants::DISCOVERY_UNI_PER_PAGE;

impl Collector {
    // The counts stay as they are, or start afresh where the last page's number changes.
    fn expect(&mut self, last_page: u8)
        ensures { self.new ≡ collector_of self.old.cid last_page (counts_for self.old last_page) }
    {
        if self.last_page != last_page {
            self.last_page = last_page;
            self.counts = [None; 256];
        }
    }

    // The universes are lent as they stand in a datagram, two bytes each.
    pub(crate) fn keep(&mut self, fields: DiscoveryFields, universes: &[u8], memory: &mut [u16])
        requires universes_len_bound { length universes.now ≤ 1024 }
        requires page_in_bounds { 512 * (fields.page + 1) ≤ length memory.old }
        ensures collector { self.new ≡ keeping self.old fields (all_universes universes.now) }
        ensures memory { memory.new ≡ memory_with memory.old fields (all_universes universes.now) }
    {
        self.expect(fields.last_page);
        let page = fields.page as usize;
        let at = DISCOVERY_UNI_PER_PAGE * page;
        discovery::copy_universes(universes, &mut memory[at..]);
        let count = (universes.len() / 2) as u16;
        self.counts[page] = Some(count);
    }
}
