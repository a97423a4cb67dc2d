// The numbers that are told beside the words.
ghost use Rattle.std.specs.Prelude.{◌≡◌, ◌+◌};
ghost use Rattle.wire.specs.Fields.{byte_at};
ghost use Rattle.refusal.specs.Check.{start_of};
ghost use Rattle.finding_text.specs.Numbers.{length_at, room_at, head_at, shown_of, found_start, found_value, found_field, found as found_source, limit_start, limit_room, limit as limit_source};

use discovery::E131_UNIVERSE_FIELD_LENGTH;
use failed_check::Fault;
use refusal::{Field, Reason, Room, Start, Value};
use wire::layout::{
    DATA_FRAMING_LENGTH, DISCOVERY_FRAMING_LENGTH, DISCOVERY_START, DMP_START, FRAMING_START,
    HEAD_LENGTH, PREAMBLE_LENGTH, ROOT_LENGTH, UNIVERSES_START,
};

// A vector of one byte.
const DMP_HEAD_LENGTH: u64 = 3;

// Where a number comes from: the refusal, the datagram from the told byte on, or a layer's length and room.
#[derive(Clone, Copy)]
pub enum Source {
    Nowhere,
    Value,
    Byte,
    Word,
    NextByte,
    WordBefore,
    Length,
    Room,
    RootRoom,
    Head,
}

// Twelve bits of a layer's first two bytes.
fn length_at(d: &[u8], at: usize) -> usize
    ensures { result ≡ length_at d.now at }
{
    (wire::u16_at(d, at) % 0x1000) as usize
}

// The byte of a datagram at which a place starts.
fn start_of(place: u8) -> usize
    ensures { result ≡ start_of place }
{
    match place {
        refusal::ROOT => PREAMBLE_LENGTH,
        refusal::FRAMING => FRAMING_START,
        refusal::DMP => DMP_START,
        refusal::DISCOVERY => DISCOVERY_START,
        refusal::UNIVERSE_LIST => UNIVERSES_START,
        _ => 0,
    }
}

// How many bytes there are for a place, once all before it was found good.
fn room_at(d: &[u8], place: u8) -> usize
    ensures { result ≡ room_at d.now place }
{
    match place {
        refusal::PREAMBLE => d.len(),
        refusal::ROOT => d.len().saturating_sub(PREAMBLE_LENGTH),
        refusal::FRAMING => length_at(d, PREAMBLE_LENGTH).saturating_sub(ROOT_LENGTH),
        refusal::DMP => length_at(d, FRAMING_START).saturating_sub(DATA_FRAMING_LENGTH),
        _ => length_at(d, FRAMING_START).saturating_sub(DISCOVERY_FRAMING_LENGTH),
    }
}

// Flags, length and vector.
fn head_at(place: u8) -> u64
    ensures { result ≡ head_at place }
{
    if place == refusal::DMP {
        DMP_HEAD_LENGTH
    } else {
        HEAD_LENGTH as u64
    }
}

// The last page stands behind the page. The sum must not run over.
fn next_byte(d: &[u8], byte: usize) -> u8
    ensures { result ≡ byte_at d.now (byte + 1) }
{
    if d.len() <= byte {
        return 0;
    }
    wire::byte_at(d, byte + 1)
}

#[tactic(auto, unfolding(crate::specs::Numbers::shown_of))]
pub(crate) fn resolve(source: Source, d: &[u8], fault: Fault) -> Option<u64>
    ensures { result ≡ shown_of source d.now fault }
{
    let Fault { refusal, check } = fault;
    match source {
        Source::Nowhere => None,
        Source::Value => Some(refusal.value as u64),
        Source::Byte => Some(wire::byte_at(d, check.byte) as u64),
        Source::Word => Some(wire::u16_at(d, check.byte) as u64),
        Source::NextByte => Some(next_byte(d, check.byte) as u64),
        Source::WordBefore => {
            let before = check.byte.saturating_sub(E131_UNIVERSE_FIELD_LENGTH);
            Some(wire::u16_at(d, before) as u64)
        }
        Source::Length => Some(length_at(d, start_of(refusal.place)) as u64),
        Source::Room => Some(room_at(d, refusal.place) as u64),
        Source::RootRoom => Some(room_at(d, refusal::ROOT) as u64),
        Source::Head => Some(head_at(refusal.place)),
    }
}

fn found_start(start: Start) -> Source
    ensures { result ≡ found_start start }
{
    match start {
        Start::Preamble => Source::Room,
        Start::Layer => Source::Room,
        Start::Universes => Source::Nowhere,
    }
}

fn found_value(value: Value) -> Source
    ensures { result ≡ found_value value }
{
    match value {
        Value::PreambleSize => Source::Word,
        Value::PostambleSize => Source::Word,
        Value::Identifier => Source::Nowhere,
        Value::AddressType => Source::Byte,
        Value::FirstAddress => Source::Word,
        Value::Increment => Source::Word,
        Value::Count => Source::Word,
    }
}

fn found_field(field: Field) -> Source
    ensures { result ≡ found_field field }
{
    match field {
        Field::Cid => Source::Length,
        Field::Name => Source::Room,
        Field::Priority => Source::Room,
        Field::SyncAddress => Source::Room,
        Field::SequenceNumber => Source::Room,
        Field::Options => Source::Room,
        Field::Universe => Source::Room,
        Field::DmpLayer => Source::Length,
        Field::AddressType => Source::Room,
        Field::FirstAddress => Source::Room,
        Field::Increment => Source::Room,
        Field::Count => Source::Room,
    }
}

// What was there.
pub(crate) fn found(reason: Reason) -> Source
    ensures { result ≡ found_source reason }
{
    match reason {
        Reason::TooShort(start) => found_start(start),
        Reason::NotAllowed(value) => found_value(value),
        Reason::Flags => Source::Value,
        Reason::Vector(_) => Source::Value,
        Reason::Length(_) => Source::Value,
        Reason::NameNotEnded => Source::Nowhere,
        Reason::NameNotUtf8 => Source::Value,
        Reason::Priority => Source::Value,
        Reason::SyncAddress(_) => Source::Value,
        Reason::Universe => Source::Value,
        Reason::Page => Source::Byte,
        Reason::Order => Source::Value,
        Reason::Missing(field) => found_field(field),
        Reason::Beyond(_) => Source::Value,
        Reason::CountDiffers => Source::Value,
        Reason::LengthDiffers => Source::Value,
        Reason::NoStartCode => Source::Word,
    }
}

fn limit_start(start: Start) -> Source
    ensures { result ≡ limit_start start }
{
    match start {
        Start::Preamble => Source::Nowhere,
        Start::Layer => Source::Head,
        Start::Universes => Source::Nowhere,
    }
}

fn limit_room(room: Room) -> Source
    ensures { result ≡ limit_room room }
{
    match room {
        Room::Part => Source::Room,
        Room::Root => Source::RootRoom,
    }
}

// What was wanted, where the words leave it open.
pub(crate) fn limit(reason: Reason) -> Source
    ensures { result ≡ limit_source reason }
{
    match reason {
        Reason::TooShort(start) => limit_start(start),
        Reason::NotAllowed(_) => Source::Nowhere,
        Reason::Flags => Source::Nowhere,
        Reason::Vector(_) => Source::Nowhere,
        Reason::Length(_) => Source::Nowhere,
        Reason::NameNotEnded => Source::Nowhere,
        Reason::NameNotUtf8 => Source::Nowhere,
        Reason::Priority => Source::Nowhere,
        Reason::SyncAddress(_) => Source::Nowhere,
        Reason::Universe => Source::Nowhere,
        Reason::Page => Source::NextByte,
        Reason::Order => Source::WordBefore,
        Reason::Missing(_) => Source::Nowhere,
        Reason::Beyond(room) => limit_room(room),
        Reason::CountDiffers => Source::Length,
        Reason::LengthDiffers => Source::Room,
        Reason::NoStartCode => Source::Nowhere,
    }
}
