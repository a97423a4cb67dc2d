// The framing layers under the extended root vector, and the discovery layer in one of them.
ghost use Rattle.std.specs.Prelude.{◌≡◌};
ghost use Rattle.discovery.specs.Layer.{discovery_checks};
ghost use Rattle.extended.specs.Extended.{extended_checks};
ghost use Rattle.refusal.specs.Check.{framing as framing_place, discovery as discovery_place};
ghost use Rattle.failed_check.specs.Tell.{Refuses, Names};

use crate::{at, layer_length};
use discovery::E131_DISCOVERY_LAYER_PAGE_FIELD_INDEX;
use extended::synchronization::E131_SYNC_FRAMING_LAYER_SYNC_ADDRESS_FIELD_INDEX;
use refusal::{AddressIn, Identity, LengthIn, Reason, Refusal, Room, Start, VectorIn};
use wire::constants::VECTOR_E131_EXTENDED_SYNCHRONIZATION;
use wire::layout::{
    DISCOVERY_FRAMING_LENGTH, DISCOVERY_LENGTH, DISCOVERY_START, FRAMING_START, SOURCE_NAME_START,
    VECTOR_INDEX,
};

// A length beyond root's whole part, or beyond the layer's own.
fn too_long(p: &[u8], whole: usize, refusal: Refusal) -> Identity
    requires { Refuses (extended_checks whole p.now) refusal × (refusal.number ≡ 14) × (refusal.place ≡ framing_place) }
    ensures { Names (extended_checks whole p.now) refusal result }
{
    if whole < layer_length(p) {
        return at(Reason::Beyond(Room::Root), FRAMING_START);
    }
    at(Reason::Beyond(Room::Part), FRAMING_START)
}

// A length that the kind of packet cannot have.
fn not_allowed(p: &[u8], whole: usize, refusal: Refusal) -> Identity
    requires { Refuses (extended_checks whole p.now) refusal × (refusal.number ≡ 5) × (refusal.place ≡ framing_place) }
    ensures { Names (extended_checks whole p.now) refusal result }
{
    if wire::u32_at(p, VECTOR_INDEX) == VECTOR_E131_EXTENDED_SYNCHRONIZATION {
        return at(Reason::Length(LengthIn::Synchronization), FRAMING_START);
    }
    at(Reason::Length(LengthIn::DiscoveryFraming), FRAMING_START)
}

fn in_framing(p: &[u8], whole: usize, refusal: Refusal) -> Identity
    requires { Refuses (extended_checks whole p.now) refusal × (refusal.place ≡ framing_place) }
    ensures { Names (extended_checks whole p.now) refusal result }
{
    match refusal.number {
        refusal::PART_TOO_SHORT => at(Reason::TooShort(Start::Layer), FRAMING_START),
        refusal::INVALID_FLAGS => at(Reason::Flags, FRAMING_START),
        refusal::LENGTH_BEYOND_PART => too_long(p, whole, refusal),
        refusal::INVALID_VECTOR => at(
            Reason::Vector(VectorIn::Extended),
            FRAMING_START + VECTOR_INDEX,
        ),
        refusal::INVALID_LENGTH => not_allowed(p, whole, refusal),
        refusal::NAME_NOT_TERMINATED => at(Reason::NameNotEnded, SOURCE_NAME_START),
        refusal::NAME_NOT_UTF8 => at(Reason::NameNotUtf8, SOURCE_NAME_START),
        _ => at(
            Reason::SyncAddress(AddressIn::Synchronization),
            FRAMING_START + E131_SYNC_FRAMING_LAYER_SYNC_ADDRESS_FIELD_INDEX,
        ),
    }
}

// The discovery layer, whose part is q.
fn in_discovery(q: &[u8], refusal: Refusal) -> Identity
    requires { Refuses (discovery_checks q.now) refusal × (refusal.place ≡ discovery_place) }
    ensures { Names (discovery_checks q.now) refusal result }
{
    match refusal.number {
        refusal::PART_TOO_SHORT => at(Reason::TooShort(Start::Layer), DISCOVERY_START),
        refusal::INVALID_FLAGS => at(Reason::Flags, DISCOVERY_START),
        refusal::LENGTH_DIFFERS_FROM_PART => at(Reason::LengthDiffers, DISCOVERY_START),
        refusal::INVALID_VECTOR => at(
            Reason::Vector(VectorIn::Discovery),
            DISCOVERY_START + VECTOR_INDEX,
        ),
        refusal::INVALID_LENGTH => at(Reason::Length(LengthIn::Discovery), DISCOVERY_START),
        _ => at(
            Reason::Page,
            DISCOVERY_START + E131_DISCOVERY_LAYER_PAGE_FIELD_INDEX,
        ),
    }
}

// The discovery layer, and the list of universes in it.
fn in_discovery_part(q: &[u8], refusal: Refusal) -> Identity
    requires { Refuses (discovery_checks q.now) refusal }
    ensures { Names (discovery_checks q.now) refusal result }
{
    if refusal.place == refusal::DISCOVERY {
        return in_discovery(q, refusal);
    }
    crate::universe_list::find(&q[DISCOVERY_LENGTH..], refusal)
}

pub(crate) fn find(p: &[u8], whole: usize, refusal: Refusal) -> Identity
    requires { Refuses (extended_checks whole p.now) refusal }
    ensures { Names (extended_checks whole p.now) refusal result }
{
    if refusal.place == refusal::FRAMING {
        return in_framing(p, whole, refusal);
    }
    let end = layer_length(p);
    in_discovery_part(&p[DISCOVERY_FRAMING_LENGTH..end], refusal)
}
