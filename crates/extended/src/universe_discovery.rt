// The framing layer of a universe discovery packet.
ghost use Rattle.std.proofs.lemmas.List.Edits.{sets};
ghost use Rattle.extended.specs.Bytes.{discovery_framing_bytes};
ghost use Rattle.std.specs.Prelude.{◌≡◌};
ghost use Rattle.extended.specs.UniverseDiscovery.{discovery_framing_of};

use discovery::DiscoveryFields;
use refusal::Refusal;
use wire::constants::{
    E131_UNIVERSE_DISCOVERY_FRAMING_LAYER_MIN_LENGTH, VECTOR_E131_EXTENDED_DISCOVERY,
};
use wire::layout::{DISCOVERY_FRAMING_LENGTH, DISCOVERY_LENGTH, HEAD_LENGTH};

// Indexes of the fields, from the layer's first byte.
const E131_DISCOVERY_FRAMING_LAYER_SOURCE_NAME_FIELD_INDEX: usize = HEAD_LENGTH;

const E131_DISCOVERY_FRAMING_LAYER_RESERVE_FIELD_INDEX: usize = 70;

const E131_DISCOVERY_FRAMING_LAYER_DATA_INDEX: usize = DISCOVERY_FRAMING_LENGTH;

// The layer's length with no universes.
const EMPTY_LENGTH: usize = DISCOVERY_FRAMING_LENGTH + DISCOVERY_LENGTH;

// A layer that is read: how many bytes its name has, and its page with as many universes.
#[derive(Clone, Copy)]
pub struct DiscoveryFraming {
    pub name: usize,
    pub fields: DiscoveryFields,
    pub universes: u16,
}

// Reads the layer whose start said this length, with the vector of a universe discovery packet.
pub fn parse(p: &[u8], length: u16) -> Result<DiscoveryFraming, Refusal>
    ensures { result ≡ discovery_framing_of p.now length }
{
    let end = length as usize;
    if p.len() < end {
        return refusal::refuse(refusal::LENGTH_BEYOND_PART, refusal::FRAMING, length as u32);
    }
    if length < E131_UNIVERSE_DISCOVERY_FRAMING_LAYER_MIN_LENGTH {
        return refusal::refuse(refusal::INVALID_LENGTH, refusal::FRAMING, length as u32);
    }
    let field =
        &p[E131_DISCOVERY_FRAMING_LAYER_SOURCE_NAME_FIELD_INDEX..E131_DISCOVERY_FRAMING_LAYER_RESERVE_FIELD_INDEX];
    // As matches: each `?` would move the answer through memory, in all a third of the time of an empty list.
    let name = match name::parse_source_name_str(field) {
        Err(r) => return Err(r),
        Ok(len) => len,
    };
    match discovery::parse(&p[E131_DISCOVERY_FRAMING_LAYER_DATA_INDEX..end]) {
        Err(r) => Err(r),
        Ok(layer) => Ok(DiscoveryFraming {
            name,
            fields: layer.fields,
            universes: layer.count,
        }),
    }
}

// Writes the layer at `at`. It cannot refuse: whoever packs a packet has checked name and universes.
pub fn pack(buf: &mut [u8], at: usize, fields: DiscoveryFields, name: &[u8], universes: &[u16])
    ensures { buf.new ≡ sets buf.old at (discovery_framing_bytes fields name.now universes.now) }
{
    if buf.len() < at {
        return;
    }
    pdu::put_head(
        buf,
        at,
        EMPTY_LENGTH + 2 * universes.len(),
        VECTOR_E131_EXTENDED_DISCOVERY,
    );
    name::pack_source_name(
        buf,
        at + E131_DISCOVERY_FRAMING_LAYER_SOURCE_NAME_FIELD_INDEX,
        name,
    );
    wire::put_u32(
        buf,
        at + E131_DISCOVERY_FRAMING_LAYER_RESERVE_FIELD_INDEX,
        0,
    );
    discovery::pack(
        buf,
        at + E131_DISCOVERY_FRAMING_LAYER_DATA_INDEX,
        fields,
        universes,
    );
}
