// The framing layer of a synchronization packet.
ghost use Rattle.std.specs.Prelude.{◌≡◌, Err};
ghost use Rattle.std.proofs.lemmas.List.Edits.{sets};
ghost use Rattle.refusal.specs.Check.{refusal, framing as framing_place};
ghost use Rattle.extended.specs.Bytes.{synchronization_framing_bytes};
ghost use Rattle.extended.specs.Synchronization.{synchronization_of};

use refusal::Refusal;
use wire::constants::{
    E131_MAX_MULTICAST_UNIVERSE, E131_MIN_MULTICAST_UNIVERSE,
    E131_UNIVERSE_SYNC_PACKET_FRAMING_LAYER_LENGTH, VECTOR_E131_EXTENDED_SYNCHRONIZATION,
};

// Indexes of the fields, from the layer's first byte.
const E131_SYNC_FRAMING_LAYER_SEQ_NUM_FIELD_INDEX: usize = 6;

pub const E131_SYNC_FRAMING_LAYER_SYNC_ADDRESS_FIELD_INDEX: usize = 7;

#[repr(C)]
#[derive(Clone, Copy, Default)]
pub struct SynchronizationFields {
    pub sequence_number: u8,
    pub synchronization_address: u16,
}

// The layer's place, said once: at each refusal it would be no plainer.
fn refuse<T>(number: u8, value: u32) -> Result<T, Refusal>
    ensures { result ≡ Err (refusal number framing_place value) }
{
    refusal::refuse(number, refusal::FRAMING, value)
}

// Reads the layer whose start said this length, with the vector of a synchronization packet.
pub fn parse(p: &[u8], length: u16) -> Result<SynchronizationFields, Refusal>
    ensures { result ≡ synchronization_of p.now length }
{
    if p.len() < length as usize {
        return refuse(refusal::LENGTH_BEYOND_PART, length as u32);
    }
    if length != E131_UNIVERSE_SYNC_PACKET_FRAMING_LAYER_LENGTH {
        return refuse(refusal::INVALID_LENGTH, length as u32);
    }
    let synchronization_address = wire::u16_at(p, E131_SYNC_FRAMING_LAYER_SYNC_ADDRESS_FIELD_INDEX);
    if synchronization_address < E131_MIN_MULTICAST_UNIVERSE {
        return refuse(
            refusal::INVALID_SYNC_ADDRESS,
            synchronization_address as u32,
        );
    }
    if E131_MAX_MULTICAST_UNIVERSE < synchronization_address {
        return refuse(
            refusal::INVALID_SYNC_ADDRESS,
            synchronization_address as u32,
        );
    }
    Ok(SynchronizationFields {
        sequence_number: wire::byte_at(p, E131_SYNC_FRAMING_LAYER_SEQ_NUM_FIELD_INDEX),
        synchronization_address,
    })
}

// Writes the layer at `at`.
pub fn pack(buf: &mut [u8], at: usize, fields: SynchronizationFields)
    ensures { buf.new ≡ sets buf.old at (synchronization_framing_bytes fields) }
{
    if buf.len() < at {
        return;
    }
    pdu::put_head(
        buf,
        at,
        E131_UNIVERSE_SYNC_PACKET_FRAMING_LAYER_LENGTH as usize,
        VECTOR_E131_EXTENDED_SYNCHRONIZATION,
    );
    let [address_high, address_low] = fields.synchronization_address.to_be_bytes();
    let bytes = [fields.sequence_number, address_high, address_low, 0, 0];
    wire::copy(
        buf,
        at + E131_SYNC_FRAMING_LAYER_SEQ_NUM_FIELD_INDEX,
        &bytes,
    );
}
