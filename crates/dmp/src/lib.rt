// The DMP layer of a data packet: the property values, start code first.
#![tactic(auto)]

ghost use Rattle.std.specs.Prelude.{◌≡◌, Err};
ghost use Rattle.std.proofs.lemmas.List.Edits.{sets};
ghost use Rattle.refusal.specs.Check.{refusal, dmp as dmp_place};
ghost use Rattle.dmp.specs.Layer.{dmp_of, body_of, counted_of, dmp_bytes};

use pdu::VectorLength;
use refusal::Refusal;
use wire::constants::{
    E131_DATA_PACKET_DMP_LAYER_ADDRESS_INCREMENT, E131_DATA_PACKET_DMP_LAYER_FIRST_PROPERTY_FIELD,
    E131_DMP_LAYER_ADDRESS_DATA_FIELD, UNIVERSE_CHANNEL_CAPACITY, VECTOR_DMP_SET_PROPERTY,
};
use wire::layout::DMP_LENGTH;

// Indexes of the fields, from the layer's first byte.
pub const ADDRESS_DATA_FIELD_INDEX: usize = 3;

pub const FIRST_PROPERTY_FIELD_INDEX: usize = 4;

pub const ADDRESS_INCREMENT_FIELD_INDEX: usize = 6;

pub const PROPERTY_VALUE_COUNT_FIELD_INDEX: usize = 8;

const PROPERTY_VALUES_FIELD_INDEX: usize = DMP_LENGTH;

// The layer's place, said once: at each refusal it would be no plainer.
fn refuse<T>(number: u8, value: u32) -> Result<T, Refusal>
    ensures { result ≡ Err (refusal number dmp_place value) }
{
    refusal::refuse(number, refusal::DMP, value)
}

// The count: whether the layer's length says the same, and whether there is a start code.
fn parse_count(p: &[u8], length: u16) -> Result<usize, Refusal>
    ensures { result ≡ counted_of p.now length }
{
    if p.len() < PROPERTY_VALUES_FIELD_INDEX {
        return refuse(refusal::MISSING_FIELD, 0);
    }
    let count = wire::u16_at(p, PROPERTY_VALUE_COUNT_FIELD_INDEX) as usize;
    if count + PROPERTY_VALUES_FIELD_INDEX != length as usize {
        return refuse(refusal::COUNT_DIFFERS_FROM_LENGTH, count as u32);
    }
    if count == 0 {
        return refuse(refusal::NO_START_CODE, 0);
    }
    if UNIVERSE_CHANNEL_CAPACITY < count {
        return refuse(refusal::INVALID_DATA, 0);
    }
    Ok(count)
}

// The checks after the layer's start.
fn parse_body(p: &[u8], length: u16, vector: u32) -> Result<usize, Refusal>
    ensures { result ≡ body_of p.now length vector }
{
    if p.len() < length as usize {
        return refuse(refusal::LENGTH_BEYOND_PART, length as u32);
    }
    if vector != VECTOR_DMP_SET_PROPERTY as u32 {
        return refuse(refusal::INVALID_VECTOR, vector);
    }
    if p.len() < FIRST_PROPERTY_FIELD_INDEX {
        return refuse(refusal::MISSING_FIELD, 0);
    }
    if wire::byte_at(p, ADDRESS_DATA_FIELD_INDEX) != E131_DMP_LAYER_ADDRESS_DATA_FIELD {
        return refuse(refusal::INVALID_DATA, 0);
    }
    if p.len() < ADDRESS_INCREMENT_FIELD_INDEX {
        return refuse(refusal::MISSING_FIELD, 0);
    }
    if wire::u16_at(p, FIRST_PROPERTY_FIELD_INDEX)
        != E131_DATA_PACKET_DMP_LAYER_FIRST_PROPERTY_FIELD
    {
        return refuse(refusal::INVALID_DATA, 0);
    }
    if p.len() < PROPERTY_VALUE_COUNT_FIELD_INDEX {
        return refuse(refusal::MISSING_FIELD, 0);
    }
    if wire::u16_at(p, ADDRESS_INCREMENT_FIELD_INDEX)
        != E131_DATA_PACKET_DMP_LAYER_ADDRESS_INCREMENT
    {
        return refuse(refusal::INVALID_DATA, 0);
    }
    parse_count(p, length)
}

// Reads the layer whose part is p, and tells how many values it has.
pub fn parse(p: &[u8]) -> Result<usize, Refusal>
    ensures { result ≡ dmp_of p.now }
{
    let info = pdu::pdu_info(p, VectorLength::One, refusal::DMP)?;
    parse_body(p, info.length, info.vector)
}

// Writes the layer at `at`. It cannot refuse: whoever packs a packet has counted the values.
pub fn pack(buf: &mut [u8], at: usize, values: &[u8])
    ensures { buf.new ≡ sets buf.old at (dmp_bytes values.now) }
{
    if buf.len() < at {
        return;
    }
    let flags = pdu::flags_and_length(PROPERTY_VALUES_FIELD_INDEX + values.len());
    let [flags_0, flags_1] = flags.to_be_bytes();
    let [property_0, property_1] = E131_DATA_PACKET_DMP_LAYER_FIRST_PROPERTY_FIELD.to_be_bytes();
    let [increment_0, increment_1] = E131_DATA_PACKET_DMP_LAYER_ADDRESS_INCREMENT.to_be_bytes();
    let [.., count_0, count_1] = values.len().to_be_bytes();
    let head = [
        flags_0,
        flags_1,
        VECTOR_DMP_SET_PROPERTY,
        E131_DMP_LAYER_ADDRESS_DATA_FIELD,
        property_0,
        property_1,
        increment_0,
        increment_1,
        count_0,
        count_1,
    ];
    wire::copy(buf, at, &head);
    wire::copy(buf, at + PROPERTY_VALUES_FIELD_INDEX, values);
}
