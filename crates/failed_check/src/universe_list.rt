// The list of universes in a discovery layer. Its part holds as many as are counted, so that only their order refuses.
ghost use Rattle.std.specs.Prelude.{true, false, ◌≡◌, ◌*◌, ◌-◌, ◌/◌, ◌≤◌, ◌<◌, length};
ghost use Rattle.wire.specs.Fields.{u16_at};
ghost use Rattle.discovery.specs.Universes.{list_checks};
ghost use Rattle.failed_check.specs.Tell.{Refuses, Names};

use crate::at;
use discovery::E131_UNIVERSE_FIELD_LENGTH;
use refusal::{Identity, Reason, Refusal};
use wire::layout::UNIVERSES_START;

// Whether a universe is above the one before it.
fn rises(list: &[u8], i: usize) -> bool
    requires { (1 ≤ i) × (i < length list.now / 2) }
    ensures up { result ≡ true → u16_at list.now (2 * i - 2) < u16_at list.now (2 * i) }
    ensures down { result ≡ false → u16_at list.now (2 * i) ≤ u16_at list.now (2 * i - 2) }
{
    let at = E131_UNIVERSE_FIELD_LENGTH * i;
    wire::u16_at(list, at - E131_UNIVERSE_FIELD_LENGTH) < wire::u16_at(list, at)
}

// The first universe that is not above the one before it.
pub(crate) fn find(list: &[u8], refusal: Refusal) -> Identity
    requires { Refuses (list_checks list.now (length list.now / 2)) refusal }
    ensures { Names (list_checks list.now (length list.now / 2)) refusal result }
{
    for i in 1..list.len() / E131_UNIVERSE_FIELD_LENGTH {
        if !rises(list, i) {
            return at(
                Reason::Order,
                UNIVERSES_START + E131_UNIVERSE_FIELD_LENGTH * i,
            );
        }
    }
    unreachable!()
}
