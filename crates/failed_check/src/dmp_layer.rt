// The DMP layer of a data packet.
ghost use Rattle.std.specs.Prelude.{◌≡◌};
ghost use Rattle.dmp.specs.Layer.{dmp_checks};
ghost use Rattle.refusal.specs.Check.{dmp as dmp_place};
ghost use Rattle.failed_check.specs.Tell.{Refuses, Names};

use crate::at;
use dmp::{
    ADDRESS_DATA_FIELD_INDEX, ADDRESS_INCREMENT_FIELD_INDEX, FIRST_PROPERTY_FIELD_INDEX,
    PROPERTY_VALUE_COUNT_FIELD_INDEX,
};
use refusal::{Field, Identity, Reason, Refusal, Room, Start, Value, VectorIn};
use wire::constants::{
    E131_DATA_PACKET_DMP_LAYER_ADDRESS_INCREMENT, E131_DATA_PACKET_DMP_LAYER_FIRST_PROPERTY_FIELD,
    E131_DMP_LAYER_ADDRESS_DATA_FIELD,
};
use wire::layout::{DMP_START, VECTOR_INDEX};

// A field that the layer does not reach.
fn missing(q: &[u8], refusal: Refusal) -> Identity
    requires { Refuses (dmp_checks q.now) refusal × (refusal.number ≡ 13) × (refusal.place ≡ dmp_place) }
    ensures { Names (dmp_checks q.now) refusal result }
{
    if q.len() < FIRST_PROPERTY_FIELD_INDEX {
        return at(Reason::Missing(Field::AddressType), DMP_START);
    }
    if q.len() < ADDRESS_INCREMENT_FIELD_INDEX {
        return at(Reason::Missing(Field::FirstAddress), DMP_START);
    }
    if q.len() < PROPERTY_VALUE_COUNT_FIELD_INDEX {
        return at(Reason::Missing(Field::Increment), DMP_START);
    }
    at(Reason::Missing(Field::Count), DMP_START)
}

// A field that is not what it has to be.
fn not_allowed(q: &[u8], refusal: Refusal) -> Identity
    requires { Refuses (dmp_checks q.now) refusal × (refusal.number ≡ 2) × (refusal.place ≡ dmp_place) }
    ensures { Names (dmp_checks q.now) refusal result }
{
    if wire::byte_at(q, ADDRESS_DATA_FIELD_INDEX) != E131_DMP_LAYER_ADDRESS_DATA_FIELD {
        return at(
            Reason::NotAllowed(Value::AddressType),
            DMP_START + ADDRESS_DATA_FIELD_INDEX,
        );
    }
    if wire::u16_at(q, FIRST_PROPERTY_FIELD_INDEX)
        != E131_DATA_PACKET_DMP_LAYER_FIRST_PROPERTY_FIELD
    {
        return at(
            Reason::NotAllowed(Value::FirstAddress),
            DMP_START + FIRST_PROPERTY_FIELD_INDEX,
        );
    }
    if wire::u16_at(q, ADDRESS_INCREMENT_FIELD_INDEX)
        != E131_DATA_PACKET_DMP_LAYER_ADDRESS_INCREMENT
    {
        return at(
            Reason::NotAllowed(Value::Increment),
            DMP_START + ADDRESS_INCREMENT_FIELD_INDEX,
        );
    }
    at(
        Reason::NotAllowed(Value::Count),
        DMP_START + PROPERTY_VALUE_COUNT_FIELD_INDEX,
    )
}

pub(crate) fn find(q: &[u8], refusal: Refusal) -> Identity
    requires { Refuses (dmp_checks q.now) refusal }
    ensures { Names (dmp_checks q.now) refusal result }
{
    match refusal.number {
        refusal::PART_TOO_SHORT => at(Reason::TooShort(Start::Layer), DMP_START),
        refusal::INVALID_FLAGS => at(Reason::Flags, DMP_START),
        refusal::LENGTH_BEYOND_PART => at(Reason::Beyond(Room::Part), DMP_START),
        refusal::INVALID_VECTOR => at(Reason::Vector(VectorIn::Dmp), DMP_START + VECTOR_INDEX),
        refusal::MISSING_FIELD => missing(q, refusal),
        refusal::COUNT_DIFFERS_FROM_LENGTH => at(
            Reason::CountDiffers,
            DMP_START + PROPERTY_VALUE_COUNT_FIELD_INDEX,
        ),
        refusal::NO_START_CODE => at(
            Reason::NoStartCode,
            DMP_START + PROPERTY_VALUE_COUNT_FIELD_INDEX,
        ),
        _ => not_allowed(q, refusal),
    }
}
