// Why a packet is refused: document 01's number, the place it is told at, and the value it carries.
#![tactic(auto)]

ghost use Rattle.std.specs.Prelude.{◌≡◌, Err};
ghost use Rattle.refusal.specs.Check.{refusal};

// The numbers, each by what is wrong. No enum: the C interface hands them out as document 01's table has them, with 0
// where nothing is refused.
pub const PART_TOO_SHORT: u8 = 1;

pub const INVALID_DATA: u8 = 2;

pub const INVALID_FLAGS: u8 = 3;

pub const INVALID_VECTOR: u8 = 4;

pub const INVALID_LENGTH: u8 = 5;

pub const NAME_NOT_TERMINATED: u8 = 6;

pub const NAME_NOT_UTF8: u8 = 7;

pub const INVALID_PRIORITY: u8 = 8;

pub const INVALID_SYNC_ADDRESS: u8 = 9;

pub const INVALID_UNIVERSE: u8 = 10;

pub const INVALID_PAGE: u8 = 11;

pub const INVALID_UNIVERSE_ORDER: u8 = 12;

pub const MISSING_FIELD: u8 = 13;

pub const LENGTH_BEYOND_PART: u8 = 14;

pub const COUNT_DIFFERS_FROM_LENGTH: u8 = 15;

pub const LENGTH_DIFFERS_FROM_PART: u8 = 16;

pub const NO_START_CODE: u8 = 17;

pub const BUFFER_TOO_SMALL: u8 = 20;

pub const NAME_TOO_LONG: u8 = 21;

pub const NAME_HAS_ZERO: u8 = 22;

pub const WRITTEN_NAME_NOT_UTF8: u8 = 23;

pub const TOO_MANY: u8 = 24;

pub const EQUAL_UNIVERSES: u8 = 25;

pub const FALLING_UNIVERSES: u8 = 26;

pub const NO_VALUES: u8 = 27;

pub const NO_MULTICAST_ADDRESS: u8 = 30;

pub const NO_UNIVERSES_COPIED: u8 = 31;

// The places: the layer that refused, or none for the numbers from 20 on. They cross to C as the numbers do.
pub const NOWHERE: u8 = 0;

pub const PREAMBLE: u8 = 1;

pub const ROOT: u8 = 2;

pub const FRAMING: u8 = 3;

pub const DMP: u8 = 4;

pub const DISCOVERY: u8 = 5;

pub const UNIVERSE_LIST: u8 = 6;

#[repr(C)]
#[derive(Clone, Copy, Default)]
pub struct Refusal {
    pub number: u8,
    pub place: u8,
    pub value: u32,
}

// What is wrong with a datagram: a case for each number that reading tells, from 1 on, and in it which check it is where
// several have that number. Where one rule is for every layer the place says whose it is.
#[derive(Clone, Copy)]
pub enum Reason {
    TooShort(Start),
    NotAllowed(Value),
    Flags,
    Vector(VectorIn),
    Length(LengthIn),
    NameNotEnded,
    NameNotUtf8,
    Priority,
    SyncAddress(AddressIn),
    Universe,
    Page,
    Order,
    Missing(Field),
    Beyond(Room),
    CountDiffers,
    LengthDiffers,
    NoStartCode,
}

// What there are too few bytes for.
#[derive(Clone, Copy)]
pub enum Start {
    Preamble,
    Layer,
    Universes,
}

// A field that has to have a certain value, and the count, which has a limit.
#[derive(Clone, Copy)]
pub enum Value {
    PreambleSize,
    PostambleSize,
    Identifier,
    AddressType,
    FirstAddress,
    Increment,
    Count,
}

// Whose vector it is.
#[derive(Clone, Copy)]
pub enum VectorIn {
    Root,
    Root2009,
    Data,
    Extended,
    Dmp,
    Discovery,
}

// Whose length it is.
#[derive(Clone, Copy)]
pub enum LengthIn {
    Synchronization,
    DiscoveryFraming,
    Discovery,
}

// Whose synchronization address it is.
#[derive(Clone, Copy)]
pub enum AddressIn {
    Data,
    Synchronization,
}

// What a layer is too short for.
#[derive(Clone, Copy)]
pub enum Field {
    Cid,
    Name,
    Priority,
    SyncAddress,
    SequenceNumber,
    Options,
    Universe,
    DmpLayer,
    AddressType,
    FirstAddress,
    Increment,
    Count,
}

// What a length is beyond: the layer's part, or root's whole part.
#[derive(Clone, Copy)]
pub enum Room {
    Part,
    Root,
}

// Which check of a datagram it is, and the byte of the datagram that it is told with.
#[derive(Clone, Copy)]
pub struct Identity {
    pub reason: Reason,
    pub byte: usize,
}

impl Refusal {
    pub fn new(number: u8, place: u8, value: u32) -> Refusal
        ensures { result ≡ refusal number place value }
    {
        Refusal {
            number,
            place,
            value,
        }
    }
}

// No answer but the refusal. In line from the start: as one number of eight bytes it would keep answers in memory.
#[inline(always)]
pub fn refuse<T>(number: u8, place: u8, value: u32) -> Result<T, Refusal>
    ensures { result ≡ Err (refusal number place value) }
{
    Err(Refusal::new(number, place, value))
}
