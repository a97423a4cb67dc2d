// Pages in memory, joined in page order.
ghost use Rattle.std.specs.Prelude.{true, ◌≡◌, ◌+◌, ◌-◌, ◌*◌, ◌≤◌, ◌<◌, length, get_or, take};
ghost use Rattle.std.proofs.lemmas.List.Edits.{sets};
ghost use Rattle.refusal.specs.Check.{outcome};
ghost use Rattle.universe_pages.proofs.Rising.{rising_from, rising, behind};
ghost use Rattle.page_collector.specs.Pages.{join_all};
ghost use Rattle.page_collector.specs.Memory.{page_at, pages_in, all_pages_there, joined};
ghost use Rattle.page_collector.specs.Collect.{answer_to, list_with};

use crate::{Answer, LIST_NOT_ASCENDING};
use wire::constants::DISCOVERY_UNI_PER_PAGE;

// A page has at most this many universes.
const MOST: u16 = DISCOVERY_UNI_PER_PAGE as u16;

// Pages that are all there, and the memory that has room for each.
#[derive(Clone, Copy)]
struct AllPages<'a> {
    counts: &'a [Option<u16>],
    memory: &'a [u16],
    ghost all_there: { outcome (all_pages_there counts.now) ≡ true },
    ghost in_memory: { 512 * length counts.now ≤ length memory.now },
}

fn has_all_pages(counts: &[Option<u16>]) -> bool
    ensures { result ≡ outcome (all_pages_there counts.now) }
{
    for &count in counts {
        match count {
            None => return false,
            Some(n) => {
                if MOST < n {
                    return false;
                }
            }
        }
    }
    true
}

// Whether a page ascends, and begins at `low` or above.
fn page_ascends(page: &[u16], low: u32) -> bool
    ensures { result ≡ outcome (rising_from low page.now) }
{
    match page.first() {
        None => true,
        Some(first) => low <= *first as u32 && discovery::check_order(page).is_ok(),
    }
}

// Where the next page has to begin at least.
fn low_behind(page: &[u16], low: u32) -> u32
    ensures { result ≡ behind low page.now }
{
    match page.last() {
        None => low,
        Some(last) => *last as u32 + 1,
    }
}

impl<'a> AllPages<'a> {
    // Page k.
    fn page(&self, k: usize) -> &'a [u16]
        requires k_in_bounds { k < length self.now.counts.now }
        ensures page { result.now ≡ page_at self.now.counts.now self.now.memory.now k }
        ensures few { length result.now ≤ 512 }
    {
        let start = DISCOVERY_UNI_PER_PAGE * k;
        let count = self.counts[k].unwrap_or(0) as usize;
        &self.memory[start..start + count]
    }

    fn ascend(&self) -> bool
        ensures { result ≡ outcome (rising (joined self.now.counts.now self.now.memory.now)) }
    {
        let mut low = 0;
        for k in 0..self.counts.len() {
            let page = self.page(k);
            if !page_ascends(page, low) {
                return false;
            }
            low = low_behind(page, low);
        }
        true
    }

    // Copies the pages one behind the other, and tells how many universes they have.
    fn copy_to(&self, list: &mut [u16]) -> usize
        requires list_has_room { 512 * length self.now.counts.now ≤ length list.old }
        ensures count { result ≡ length (joined self.now.counts.now self.now.memory.now) }
        ensures list { list.new ≡ sets list.old 0 (joined self.now.counts.now self.now.memory.now) }
    {
        let mut at = 0;
        for k in 0..self.counts.len() {
            let page = self.page(k);
            list[at..at + page.len()].copy_from_slice(page);
            at += page.len();
        }
        at
    }
}

// Joins pages that may be missing; the list is touched only where all are there and the joined pages ascend.
pub(crate) fn join(counts: &[Option<u16>], memory: &[u16], list: &mut [u16]) -> Answer
    requires counts_in_bounds { 512 * length counts.now ≤ length memory.now }
    requires counts_in_bounds_2 { 512 * length counts.now ≤ length list.old }
    ensures answer { result ≡ answer_to (join_all (pages_in counts.now memory.now)) }
    ensures list { list.new ≡ list_with list.old (join_all (pages_in counts.now memory.now)) }
{
    if !has_all_pages(counts) {
        return Ok(None);
    }
    let pages = AllPages { counts, memory };
    if !pages.ascend() {
        return refusal::refuse(LIST_NOT_ASCENDING, refusal::NOWHERE, 0);
    }
    let count = pages.copy_to(list);
    Ok(Some(count))
}
