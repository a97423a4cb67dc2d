// What was wanted of a datagram, in words: by them the checks of one number differ.
#![tactic(auto)]

ghost use Rattle.std.specs.Prelude.{◌≡◌};
ghost use Rattle.text.specs.Put.{Put};
ghost use Rattle.wanted_words.specs.Words.{start_words, value_words, vector_words, length_words, address_words, field_words, room_words, wanted_words};

use refusal::{AddressIn, Field, LengthIn, Reason, Room, Start, Value, VectorIn};
use text::Text;

#[tactic(auto, unfolding(crate::specs::Words::start_words))]
fn start_words(start: Start) -> &'static [u8]
    ensures { result.now ≡ start_words start }
{
    match start {
        Start::Preamble => b"16 for the preamble",
        Start::Layer => b"for flags, length and vector ",
        Start::Universes => b"the universes",
    }
}

#[tactic(auto, unfolding(crate::specs::Words::value_words))]
fn value_words(value: Value) -> &'static [u8]
    ensures { result.now ≡ value_words value }
{
    match value {
        Value::PreambleSize => b"preamble size 16",
        Value::PostambleSize => b"postamble size 0",
        Value::Identifier => b"ASC-E1.17 and three zeros",
        Value::AddressType => b"address type 161, which is 0xa1",
        Value::FirstAddress => b"first address 0",
        Value::Increment => b"address increment 1",
        Value::Count => b"a count of at most 513",
    }
}

#[tactic(auto, unfolding(crate::specs::Words::vector_words))]
fn vector_words(vector: VectorIn) -> &'static [u8]
    ensures { result.now ≡ vector_words vector }
{
    match vector {
        VectorIn::Root => b"4 for data or 8 for the other packets",
        VectorIn::Root2009 => b"4 for data, all that 2009 knows",
        VectorIn::Data => b"2 for data",
        VectorIn::Extended => b"1 for synchronization or 2 for discovery",
        VectorIn::Dmp => b"2 for values",
        VectorIn::Discovery => b"1 for a universe list",
    }
}

#[tactic(auto, unfolding(crate::specs::Words::length_words))]
fn length_words(length: LengthIn) -> &'static [u8]
    ensures { result.now ≡ length_words length }
{
    match length {
        LengthIn::Synchronization => b"11 for synchronization",
        LengthIn::DiscoveryFraming => b"82 or more for discovery",
        LengthIn::Discovery => b"8 to 1032 for a universe list",
    }
}

#[tactic(auto, unfolding(crate::specs::Words::address_words))]
fn address_words(address: AddressIn) -> &'static [u8]
    ensures { result.now ≡ address_words address }
{
    match address {
        AddressIn::Data => b"0 to 63999",
        AddressIn::Synchronization => b"1 to 63999",
    }
}

#[tactic(auto, unfolding(crate::specs::Words::field_words))]
fn field_words(field: Field) -> &'static [u8]
    ensures { result.now ≡ field_words field }
{
    match field {
        Field::Cid => b"length 22, up to the CID",
        Field::Name => b"70 bytes, up to the name",
        Field::Priority => b"71 bytes, up to the priority",
        Field::SyncAddress => b"73 bytes, up to the synchronization address",
        Field::SequenceNumber => b"74 bytes, up to the sequence number",
        Field::Options => b"75 bytes, up to the options",
        Field::Universe => b"77 bytes, up to the universe",
        Field::DmpLayer => b"length 77, up to the DMP layer",
        Field::AddressType => b"4 bytes, up to the address type",
        Field::FirstAddress => b"6 bytes, up to the first address",
        Field::Increment => b"8 bytes, up to the address increment",
        Field::Count => b"10 bytes, up to the count",
    }
}

#[tactic(auto, unfolding(crate::specs::Words::room_words))]
fn room_words(room: Room) -> &'static [u8]
    ensures { result.now ≡ room_words room }
{
    match room {
        Room::Part => b"at most ",
        Room::Root => b"at most all bytes from byte 16 on, ",
    }
}

#[tactic(auto, unfolding(crate::specs::Words::wanted_words))]
fn wanted_words(reason: Reason) -> &'static [u8]
    ensures { result.now ≡ wanted_words reason }
{
    match reason {
        Reason::TooShort(start) => start_words(start),
        Reason::NotAllowed(value) => value_words(value),
        Reason::Flags => b"112, which is 0x70",
        Reason::Vector(vector) => vector_words(vector),
        Reason::Length(length) => length_words(length),
        Reason::NameNotEnded => b"one in its 64 bytes",
        Reason::NameNotUtf8 => b"as many good bytes as the name has",
        Reason::Priority => b"at most 200",
        Reason::SyncAddress(address) => address_words(address),
        Reason::Universe => b"1 to 63999",
        Reason::Page => b"at most the last page, ",
        Reason::Order => b"above ",
        Reason::Missing(field) => field_words(field),
        Reason::Beyond(room) => room_words(room),
        Reason::CountDiffers => b"10 less than the layer's length, which is ",
        Reason::LengthDiffers => b"exactly ",
        Reason::NoStartCode => b"1 to 513",
    }
}

// What was wanted. A number follows where only the datagram has it.
pub fn put_wanted(out: &mut Text, reason: Reason)
    ensures { Put out.old out.new (wanted_words reason) }
{
    out.put(wanted_words(reason));
}
