// The constants of packet.rs that this port uses, by their names there. A layer's own indexes stand with the layer.

// The protocol's limits.
pub const DISCOVERY_UNI_PER_PAGE: usize = 512;

pub const UNIVERSE_CHANNEL_CAPACITY: usize = 513;

pub const E131_MAX_PRIORITY: u8 = 200;

pub const E131_MIN_MULTICAST_UNIVERSE: u16 = 1;

pub const E131_MAX_MULTICAST_UNIVERSE: u16 = 63999;

pub const E131_DISCOVERY_UNIVERSE: u16 = 64214;

pub const E131_UNIVERSE_SYNC_PACKET_FRAMING_LAYER_LENGTH: u16 = 11;

pub const E131_UNIVERSE_DISCOVERY_FRAMING_LAYER_MIN_LENGTH: u16 = 82;

pub const E131_UNIVERSE_DISCOVERY_LAYER_MIN_LENGTH: u16 = 8;

pub const E131_UNIVERSE_DISCOVERY_LAYER_MAX_LENGTH: u16 = 1032;

// The multicast address.
pub const E131_MULTICAST_IPV4_HIGHEST_BYTE: u8 = 239;

pub const E131_MULTICAST_IPV4_SECOND_BYTE: u8 = 255;

pub const ACN_SDT_MULTICAST_PORT: u16 = 5568;

// What fields hold.
pub const E131_PREAMBLE_SIZE: u16 = 0x0010;

pub const E131_POSTAMBLE_SIZE: u16 = 0;

pub const E131_PDU_FLAGS: u8 = 0x70;

pub const E131_DMP_LAYER_ADDRESS_DATA_FIELD: u8 = 0xa1;

pub const E131_DATA_PACKET_DMP_LAYER_FIRST_PROPERTY_FIELD: u16 = 0;

pub const E131_DATA_PACKET_DMP_LAYER_ADDRESS_INCREMENT: u16 = 1;

pub const E131_PREVIEW_DATA_OPTION_BIT_MASK: u8 = 0b1000_0000;

pub const E131_STREAM_TERMINATION_OPTION_BIT_MASK: u8 = 0b0100_0000;

pub const E131_FORCE_SYNCHRONISATION_OPTION_BIT_MASK: u8 = 0b0010_0000;

// The layers' vectors.
pub const VECTOR_ROOT_E131_DATA: u32 = 4;

pub const VECTOR_ROOT_E131_EXTENDED: u32 = 8;

pub const VECTOR_E131_DATA_PACKET: u32 = 2;

pub const VECTOR_E131_EXTENDED_SYNCHRONIZATION: u32 = 1;

pub const VECTOR_E131_EXTENDED_DISCOVERY: u32 = 2;

pub const VECTOR_DMP_SET_PROPERTY: u8 = 2;

pub const VECTOR_UNIVERSE_DISCOVERY_UNIVERSE_LIST: u32 = 1;

// How long fields are.
pub const E131_PDU_LENGTH_FLAGS_LENGTH: usize = 2;

pub const E131_SOURCE_NAME_FIELD_LENGTH: usize = 64;

pub const E131_CID_FIELD_LENGTH: usize = 16;
