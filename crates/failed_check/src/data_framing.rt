// The framing layer of a data packet, in both editions, and the DMP layer in it.
ghost use Rattle.std.specs.Prelude.{◌≡◌};
ghost use Rattle.framing.specs.Data.{data_checks};
ghost use Rattle.refusal.specs.Check.{framing as framing_place};
ghost use Rattle.failed_check.specs.Tell.{Refuses, Names, missed_behind_priority};

use crate::{at, layer_length};
use framing::{
    OPTIONS_FIELD_INDEX, PRIORITY_INDEX, SEQ_NUM_INDEX, SYNC_ADDR_INDEX, UNIVERSE_INDEX,
};
use pdu::Edition;
use refusal::{AddressIn, Field, Identity, Reason, Refusal, Room, Start, VectorIn};
use wire::layout::{DATA_FRAMING_LENGTH, FRAMING_START, SOURCE_NAME_START, VECTOR_INDEX};

// What comes next behind the priority: the 2009 edition does not look at the synchronization address.
fn behind_priority(edition: Edition) -> Identity
    ensures { result ≡ missed_behind_priority edition }
{
    match edition {
        Edition::E2018 => at(Reason::Missing(Field::SyncAddress), FRAMING_START),
        Edition::E2009 => at(Reason::Missing(Field::SequenceNumber), FRAMING_START),
    }
}

// A field that the layer's part does not reach, or the DMP layer, which its length does not reach.
fn missing(p: &[u8], edition: Edition, refusal: Refusal) -> Identity
    requires { Refuses (data_checks edition p.now) refusal × (refusal.number ≡ 13) × (refusal.place ≡ framing_place) }
    ensures { Names (data_checks edition p.now) refusal result }
{
    if p.len() < PRIORITY_INDEX {
        return at(Reason::Missing(Field::Name), FRAMING_START);
    }
    if p.len() < SYNC_ADDR_INDEX {
        return at(Reason::Missing(Field::Priority), FRAMING_START);
    }
    if p.len() < SEQ_NUM_INDEX {
        return behind_priority(edition);
    }
    if p.len() < OPTIONS_FIELD_INDEX {
        return at(Reason::Missing(Field::SequenceNumber), FRAMING_START);
    }
    if p.len() < UNIVERSE_INDEX {
        return at(Reason::Missing(Field::Options), FRAMING_START);
    }
    if p.len() < DATA_FRAMING_LENGTH {
        return at(Reason::Missing(Field::Universe), FRAMING_START);
    }
    at(Reason::Missing(Field::DmpLayer), FRAMING_START)
}

fn in_framing(p: &[u8], edition: Edition, refusal: Refusal) -> Identity
    requires { Refuses (data_checks edition p.now) refusal × (refusal.place ≡ framing_place) }
    ensures { Names (data_checks edition p.now) refusal result }
{
    match refusal.number {
        refusal::PART_TOO_SHORT => at(Reason::TooShort(Start::Layer), FRAMING_START),
        refusal::INVALID_FLAGS => at(Reason::Flags, FRAMING_START),
        refusal::LENGTH_BEYOND_PART => at(Reason::Beyond(Room::Part), FRAMING_START),
        refusal::INVALID_VECTOR => at(Reason::Vector(VectorIn::Data), FRAMING_START + VECTOR_INDEX),
        refusal::NAME_NOT_TERMINATED => at(Reason::NameNotEnded, SOURCE_NAME_START),
        refusal::NAME_NOT_UTF8 => at(Reason::NameNotUtf8, SOURCE_NAME_START),
        refusal::INVALID_PRIORITY => at(Reason::Priority, FRAMING_START + PRIORITY_INDEX),
        refusal::INVALID_SYNC_ADDRESS => at(
            Reason::SyncAddress(AddressIn::Data),
            FRAMING_START + SYNC_ADDR_INDEX,
        ),
        refusal::INVALID_UNIVERSE => at(Reason::Universe, FRAMING_START + UNIVERSE_INDEX),
        _ => missing(p, edition, refusal),
    }
}

pub(crate) fn find(p: &[u8], edition: Edition, refusal: Refusal) -> Identity
    requires { Refuses (data_checks edition p.now) refusal }
    ensures { Names (data_checks edition p.now) refusal result }
{
    if refusal.place == refusal::FRAMING {
        return in_framing(p, edition, refusal);
    }
    let end = layer_length(p);
    crate::dmp_layer::find(&p[DATA_FRAMING_LENGTH..end], refusal)
}
