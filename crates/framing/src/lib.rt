// The framing layer of a data packet, in both editions.
#![tactic(auto)]

ghost use Rattle.std.specs.Prelude.{◌≡◌, ◌≤◌, length as list_length, Err};
ghost use Rattle.std.proofs.lemmas.List.Edits.{sets};
ghost use Rattle.refusal.specs.Check.{refusal, checked_of, framing as framing_place};
ghost use Rattle.framing.specs.Bytes.{bit_of, field_bytes, data_framing_bytes};
ghost use Rattle.framing.specs.Data.{data_of, body_of, after_name, sync_address_checks, after_sync_address, fields_of};

use pdu::{Edition, VectorLength};
use refusal::Refusal;
use wire::constants::{
    E131_FORCE_SYNCHRONISATION_OPTION_BIT_MASK, E131_MAX_MULTICAST_UNIVERSE, E131_MAX_PRIORITY,
    E131_MIN_MULTICAST_UNIVERSE, E131_PREVIEW_DATA_OPTION_BIT_MASK,
    E131_STREAM_TERMINATION_OPTION_BIT_MASK, VECTOR_E131_DATA_PACKET,
};
use wire::layout::{DATA_FRAMING_LENGTH, DMP_LENGTH, HEAD_LENGTH};

// Indexes of the fields, from the layer's first byte.
const SOURCE_NAME_INDEX: usize = HEAD_LENGTH;

pub const PRIORITY_INDEX: usize = 70;

pub const SYNC_ADDR_INDEX: usize = 71;

pub const SEQ_NUM_INDEX: usize = 73;

pub const OPTIONS_FIELD_INDEX: usize = 74;

pub const UNIVERSE_INDEX: usize = 75;

const DATA_INDEX: usize = DATA_FRAMING_LENGTH;

// The layer's length with no values.
const EMPTY_LENGTH: usize = DATA_FRAMING_LENGTH + DMP_LENGTH;

#[repr(C)]
#[derive(Clone, Copy, Default)]
pub struct DataFields {
    pub priority: u8,
    pub synchronization_address: u16,
    pub sequence_number: u8,
    pub preview_data: bool,
    pub stream_terminated: bool,
    pub force_synchronization: bool,
    pub universe: u16,
}

// A layer that is read: how many bytes its name has, and how many values it carries.
#[derive(Clone, Copy)]
pub struct DataFraming {
    pub name: usize,
    pub values: usize,
}

// The layer's place, said once: at each refusal it would be no plainer.
fn refuse<T>(number: u8, value: u32) -> Result<T, Refusal>
    ensures { result ≡ Err (refusal number framing_place value) }
{
    refusal::refuse(number, refusal::FRAMING, value)
}

// The 2009 edition has no synchronization address to look at.
fn check_synchronization_address(p: &[u8], edition: Edition) -> Result<(), Refusal>
    ensures { result ≡ checked_of (sync_address_checks edition p.now) }
{
    match edition {
        Edition::E2009 => Ok(()),
        Edition::E2018 => {
            if p.len() < SEQ_NUM_INDEX {
                return refuse(refusal::MISSING_FIELD, 0);
            }
            let address = wire::u16_at(p, SYNC_ADDR_INDEX);
            if E131_MAX_MULTICAST_UNIVERSE < address {
                return refuse(refusal::INVALID_SYNC_ADDRESS, address as u32);
            }
            Ok(())
        }
    }
}

// From the sequence number on. A small framing length is told only after the fields are judged.
fn parse_rest(p: &[u8], length: u16, name: usize) -> Result<DataFraming, Refusal>
    requires { length ≤ list_length p.now }
    ensures { result ≡ after_sync_address name p.now length }
{
    if p.len() < OPTIONS_FIELD_INDEX {
        return refuse(refusal::MISSING_FIELD, 0);
    }
    if p.len() < UNIVERSE_INDEX {
        return refuse(refusal::MISSING_FIELD, 0);
    }
    if p.len() < DATA_INDEX {
        return refuse(refusal::MISSING_FIELD, 0);
    }
    let universe = wire::u16_at(p, UNIVERSE_INDEX);
    if universe < E131_MIN_MULTICAST_UNIVERSE {
        return refuse(refusal::INVALID_UNIVERSE, universe as u32);
    }
    if E131_MAX_MULTICAST_UNIVERSE < universe {
        return refuse(refusal::INVALID_UNIVERSE, universe as u32);
    }
    let end = length as usize;
    if end < DATA_INDEX {
        return refuse(refusal::MISSING_FIELD, 0);
    }
    let values = dmp::parse(&p[DATA_INDEX..end])?;
    Ok(DataFraming { name, values })
}

// From the priority on.
fn parse_fields(
    p: &[u8],
    edition: Edition,
    length: u16,
    name: usize,
) -> Result<DataFraming, Refusal>
    requires { length ≤ list_length p.now }
    ensures { result ≡ after_name edition name p.now length }
{
    if p.len() < SYNC_ADDR_INDEX {
        return refuse(refusal::MISSING_FIELD, 0);
    }
    let priority = wire::byte_at(p, PRIORITY_INDEX);
    if E131_MAX_PRIORITY < priority {
        return refuse(refusal::INVALID_PRIORITY, priority as u32);
    }
    check_synchronization_address(p, edition)?;
    parse_rest(p, length, name)
}

// The checks after the layer's start.
fn parse_body(p: &[u8], edition: Edition, length: u16, vector: u32) -> Result<DataFraming, Refusal>
    ensures { result ≡ body_of edition p.now length vector }
{
    if p.len() < length as usize {
        return refuse(refusal::LENGTH_BEYOND_PART, length as u32);
    }
    if vector != VECTOR_E131_DATA_PACKET {
        return refuse(refusal::INVALID_VECTOR, vector);
    }
    if p.len() < PRIORITY_INDEX {
        return refuse(refusal::MISSING_FIELD, 0);
    }
    let name = name::parse_source_name_str(&p[SOURCE_NAME_INDEX..PRIORITY_INDEX])?;
    parse_fields(p, edition, length, name)
}

// Reads the layer whose part is p.
pub fn parse(p: &[u8], edition: Edition) -> Result<DataFraming, Refusal>
    ensures { result ≡ data_of edition p.now }
{
    let info = pdu::pdu_info(p, VectorLength::Four, refusal::FRAMING)?;
    parse_body(p, edition, info.length, info.vector)
}

// The plain fields of a layer; where it was refused they mean nothing.
pub fn fields(p: &[u8]) -> DataFields
    ensures { result ≡ fields_of p.now }
{
    let options = wire::byte_at(p, OPTIONS_FIELD_INDEX);
    DataFields {
        priority: wire::byte_at(p, PRIORITY_INDEX),
        synchronization_address: wire::u16_at(p, SYNC_ADDR_INDEX),
        sequence_number: wire::byte_at(p, SEQ_NUM_INDEX),
        preview_data: options / E131_PREVIEW_DATA_OPTION_BIT_MASK % 2 == 1,
        stream_terminated: options / E131_STREAM_TERMINATION_OPTION_BIT_MASK % 2 == 1,
        force_synchronization: options / E131_FORCE_SYNCHRONISATION_OPTION_BIT_MASK % 2 == 1,
        universe: wire::u16_at(p, UNIVERSE_INDEX),
    }
}

fn bit(set: bool, mask: u8) -> u8
    ensures { result ≡ bit_of set mask }
{
    if set { mask } else { 0 }
}

fn put_fields(buf: &mut [u8], at: usize, fields: DataFields)
    ensures { buf.new ≡ sets buf.old at (field_bytes fields) }
{
    let preview = bit(fields.preview_data, E131_PREVIEW_DATA_OPTION_BIT_MASK);
    let terminated = bit(
        fields.stream_terminated,
        E131_STREAM_TERMINATION_OPTION_BIT_MASK,
    );
    let force = bit(
        fields.force_synchronization,
        E131_FORCE_SYNCHRONISATION_OPTION_BIT_MASK,
    );
    let [address_high, address_low] = fields.synchronization_address.to_be_bytes();
    let [universe_high, universe_low] = fields.universe.to_be_bytes();
    let bytes = [
        fields.priority,
        address_high,
        address_low,
        fields.sequence_number,
        preview + terminated + force,
        universe_high,
        universe_low,
    ];
    wire::copy(buf, at, &bytes);
}

// Writes the layer at `at`. It cannot refuse: whoever packs a packet has checked name and values.
pub fn pack(buf: &mut [u8], at: usize, fields: DataFields, name: &[u8], values: &[u8])
    ensures { buf.new ≡ sets buf.old at (data_framing_bytes fields name.now values.now) }
{
    if buf.len() < at {
        return;
    }
    pdu::put_head(
        buf,
        at,
        EMPTY_LENGTH + values.len(),
        VECTOR_E131_DATA_PACKET,
    );
    name::pack_source_name(buf, at + SOURCE_NAME_INDEX, name);
    put_fields(buf, at + PRIORITY_INDEX, fields);
    dmp::pack(buf, at + DATA_INDEX, values);
}
