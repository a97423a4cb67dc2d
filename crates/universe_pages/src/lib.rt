// A whole list of universes, written page by page. The whole list is judged for each page, so that no page of a list
// with a fault is ever sent.
#![tactic(auto)]

ghost use Rattle.std.specs.Prelude.{◌≡◌, ◌+◌, length};
ghost use Rattle.pack.specs.Writing.{packed_of, after_pack};
ghost use Rattle.universe_pages.specs.Pages.{last_page_of};
ghost use Rattle.universe_pages.specs.Writing.{page_write_checks, page_bytes, page_length};

use discovery::DiscoveryFields;
use refusal::Refusal;
use wire::constants::DISCOVERY_UNI_PER_PAGE;

// A number as in `refusal`.
pub const PAGE_PAST_LAST: u8 = 47;

// An empty list has one page, and no empty page follows a full one.
fn page_count(universes: &[u16]) -> usize
    ensures { result ≡ last_page_of universes.now + 1 }
{
    universes.len().div_ceil(DISCOVERY_UNI_PER_PAGE).max(1)
}

// Writes page `page` of a list, counted from 0, as a universe discovery packet. At a refusal the buffer is left as found.
pub fn pack_page(
    buf: &mut [u8],
    cid: [u8; 16],
    page: u8,
    name: &[u8],
    universes: &[u16],
) -> Result<usize, Refusal>
    ensures answer { result ≡ packed_of (page_write_checks (length buf.old) name.now universes.now page) (page_length universes.now page) }
    ensures bytes { buf.new ≡ after_pack result (page_bytes cid name.now universes.now page) buf.old }
{
    discovery::check_order(universes)?;
    let pages = page_count(universes);
    if pages <= page as usize {
        return refusal::refuse(PAGE_PAST_LAST, refusal::NOWHERE, 0);
    }
    // The list ascends, and its numbers have 16 bits, so it has at most 128 pages.
    let last_page = (pages - 1) as u8;
    let start = DISCOVERY_UNI_PER_PAGE * page as usize;
    let end = (start + DISCOVERY_UNI_PER_PAGE).min(universes.len());
    pack::pack_discovery(
        buf,
        cid,
        DiscoveryFields { page, last_page },
        name,
        &universes[start..end],
    )
}
