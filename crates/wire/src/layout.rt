// How long each layer is without the one inside it, and where in a datagram layers and fields start: every offset and
// every packet's length is a sum of these.
use crate::constants::E131_PDU_LENGTH_FLAGS_LENGTH;

pub const PREAMBLE_LENGTH: usize = 16;

pub const ROOT_LENGTH: usize = 22;

pub const DATA_FRAMING_LENGTH: usize = 77;

pub const DMP_LENGTH: usize = 10;

pub const SYNCHRONIZATION_FRAMING_LENGTH: usize = 11;

pub const DISCOVERY_FRAMING_LENGTH: usize = 74;

pub const DISCOVERY_LENGTH: usize = 8;

// Flags and length, and a vector of four bytes.
pub const HEAD_LENGTH: usize = 6;

// Where a layer's vector stands in it.
pub const VECTOR_INDEX: usize = E131_PDU_LENGTH_FLAGS_LENGTH;

pub const CID_START: usize = PREAMBLE_LENGTH + HEAD_LENGTH;

pub const FRAMING_START: usize = PREAMBLE_LENGTH + ROOT_LENGTH;

pub const SOURCE_NAME_START: usize = FRAMING_START + HEAD_LENGTH;

pub const DMP_START: usize = FRAMING_START + DATA_FRAMING_LENGTH;

pub const DISCOVERY_START: usize = FRAMING_START + DISCOVERY_FRAMING_LENGTH;

pub const VALUES_START: usize = DMP_START + DMP_LENGTH;

pub const UNIVERSES_START: usize = DISCOVERY_START + DISCOVERY_LENGTH;
