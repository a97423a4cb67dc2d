// Packets written into a lent buffer. Every test comes before the first byte: a refused write leaves the buffer as found.
#![tactic(auto)]

ghost use Rattle.std.specs.Prelude.{◌++◌, ◌≡◌, ◌+◌, ◌*◌, length};
ghost use Rattle.std.proofs.lemmas.List.Edits.{sets};
ghost use Rattle.refusal.specs.Check.{checked_of};
ghost use Rattle.pack.specs.Writing.{root_head, data_bytes, synchronization_bytes, discovery_bytes, data_length, synchronization_length, discovery_length, data_write_checks, synchronization_write_checks, discovery_write_checks, packed_of, after_pack};

use discovery::DiscoveryFields;
use extended::synchronization::SynchronizationFields;
use framing::DataFields;
use refusal::Refusal;
use wire::constants::{
    DISCOVERY_UNI_PER_PAGE, E131_POSTAMBLE_SIZE, E131_PREAMBLE_SIZE, UNIVERSE_CHANNEL_CAPACITY,
    VECTOR_ROOT_E131_DATA, VECTOR_ROOT_E131_EXTENDED,
};
use wire::layout::{
    CID_START, FRAMING_START, PREAMBLE_LENGTH, SYNCHRONIZATION_FRAMING_LENGTH, UNIVERSES_START,
    VALUES_START,
};

// How long packets and their root layers are, with no values and no universes.
const EMPTY_DATA_LENGTH: usize = VALUES_START;

const EMPTY_DATA_ROOT_LENGTH: usize = VALUES_START - PREAMBLE_LENGTH;

const SYNCHRONIZATION_LENGTH: usize = FRAMING_START + SYNCHRONIZATION_FRAMING_LENGTH;

const SYNCHRONIZATION_ROOT_LENGTH: usize = SYNCHRONIZATION_LENGTH - PREAMBLE_LENGTH;

const EMPTY_DISCOVERY_LENGTH: usize = UNIVERSES_START;

const EMPTY_DISCOVERY_ROOT_LENGTH: usize = UNIVERSES_START - PREAMBLE_LENGTH;

// Bytes 0 to 37: the preamble, and the root layer's own, with its length.
fn put_root(buf: &mut [u8], length: usize, vector: u32, cid: [u8; 16])
    ensures { buf.new ≡ sets buf.old 0 (root_head length vector ++ cid) }
{
    let [preamble_0, preamble_1] = E131_PREAMBLE_SIZE.to_be_bytes();
    let [postamble_0, postamble_1] = E131_POSTAMBLE_SIZE.to_be_bytes();
    let [flags_0, flags_1] = pdu::flags_and_length(length).to_be_bytes();
    let [vector_0, vector_1, vector_2, vector_3] = vector.to_be_bytes();
    let head = [
        preamble_0,
        preamble_1,
        postamble_0,
        postamble_1,
        b'A',
        b'S',
        b'C',
        b'-',
        b'E',
        b'1',
        b'.',
        b'1',
        b'7',
        0,
        0,
        0,
        flags_0,
        flags_1,
        vector_0,
        vector_1,
        vector_2,
        vector_3,
    ];
    wire::copy(buf, 0, &head);
    wire::copy(buf, CID_START, &cid);
}

fn check_data(room: usize, name: &[u8], values: &[u8]) -> Result<(), Refusal>
    ensures { result ≡ checked_of (data_write_checks room name.now values.now) }
{
    if room < EMPTY_DATA_LENGTH + values.len() {
        return refusal::refuse(refusal::BUFFER_TOO_SMALL, refusal::NOWHERE, 0);
    }
    name::check_source_name(name)?;
    if values.len() == 0 {
        return refusal::refuse(refusal::NO_VALUES, refusal::NOWHERE, 0);
    }
    if UNIVERSE_CHANNEL_CAPACITY < values.len() {
        return refusal::refuse(refusal::TOO_MANY, refusal::NOWHERE, 0);
    }
    Ok(())
}

fn check_discovery(room: usize, name: &[u8], universes: &[u16]) -> Result<(), Refusal>
    ensures { result ≡ checked_of (discovery_write_checks room name.now universes.now) }
{
    if room < EMPTY_DISCOVERY_LENGTH + 2 * universes.len() {
        return refusal::refuse(refusal::BUFFER_TOO_SMALL, refusal::NOWHERE, 0);
    }
    name::check_source_name(name)?;
    if DISCOVERY_UNI_PER_PAGE < universes.len() {
        return refusal::refuse(refusal::TOO_MANY, refusal::NOWHERE, 0);
    }
    discovery::check_order(universes)
}

fn put_data(buf: &mut [u8], cid: [u8; 16], fields: DataFields, name: &[u8], values: &[u8])
    ensures { buf.new ≡ sets buf.old 0 (data_bytes cid fields name.now values.now) }
{
    put_root(
        buf,
        EMPTY_DATA_ROOT_LENGTH + values.len(),
        VECTOR_ROOT_E131_DATA,
        cid,
    );
    framing::pack(buf, FRAMING_START, fields, name, values);
}

fn put_synchronization(buf: &mut [u8], cid: [u8; 16], fields: SynchronizationFields)
    ensures { buf.new ≡ sets buf.old 0 (synchronization_bytes cid fields) }
{
    put_root(
        buf,
        SYNCHRONIZATION_ROOT_LENGTH,
        VECTOR_ROOT_E131_EXTENDED,
        cid,
    );
    extended::synchronization::pack(buf, FRAMING_START, fields);
}

fn put_discovery(
    buf: &mut [u8],
    cid: [u8; 16],
    fields: DiscoveryFields,
    name: &[u8],
    universes: &[u16],
)
    ensures { buf.new ≡ sets buf.old 0 (discovery_bytes cid fields name.now universes.now) }
{
    put_root(
        buf,
        EMPTY_DISCOVERY_ROOT_LENGTH + 2 * universes.len(),
        VECTOR_ROOT_E131_EXTENDED,
        cid,
    );
    extended::universe_discovery::pack(buf, FRAMING_START, fields, name, universes);
}

// The length of the packet that is written. The checks are matched: a `?` would cost a short packet a quarter more time.
pub fn pack_data(
    buf: &mut [u8],
    cid: [u8; 16],
    fields: DataFields,
    name: &[u8],
    values: &[u8],
) -> Result<usize, Refusal>
    ensures answer { result ≡ packed_of (data_write_checks (length buf.old) name.now values.now) (data_length values.now) }
    ensures bytes { buf.new ≡ after_pack result (data_bytes cid fields name.now values.now) buf.old }
{
    match check_data(buf.len(), name, values) {
        Err(r) => Err(r),
        Ok(()) => {
            put_data(buf, cid, fields, name, values);
            Ok(EMPTY_DATA_LENGTH + values.len())
        }
    }
}

pub fn pack_synchronization(
    buf: &mut [u8],
    cid: [u8; 16],
    fields: SynchronizationFields,
) -> Result<usize, Refusal>
    ensures answer { result ≡ packed_of (synchronization_write_checks (length buf.old)) synchronization_length }
    ensures bytes { buf.new ≡ after_pack result (synchronization_bytes cid fields) buf.old }
{
    if buf.len() < SYNCHRONIZATION_LENGTH {
        // Made here: handed back by `refuse` it would take a refused write two thirds more time.
        return Err(Refusal::new(refusal::BUFFER_TOO_SMALL, refusal::NOWHERE, 0));
    }
    put_synchronization(buf, cid, fields);
    Ok(SYNCHRONIZATION_LENGTH)
}

// Its checks are matched, as in `pack_data`.
pub fn pack_discovery(
    buf: &mut [u8],
    cid: [u8; 16],
    fields: DiscoveryFields,
    name: &[u8],
    universes: &[u16],
) -> Result<usize, Refusal>
    ensures answer { result ≡ packed_of (discovery_write_checks (length buf.old) name.now universes.now) (discovery_length universes.now) }
    ensures bytes { buf.new ≡ after_pack result (discovery_bytes cid fields name.now universes.now) buf.old }
{
    match check_discovery(buf.len(), name, universes) {
        Err(r) => Err(r),
        Ok(()) => {
            put_discovery(buf, cid, fields, name, universes);
            Ok(EMPTY_DISCOVERY_LENGTH + 2 * universes.len())
        }
    }
}
