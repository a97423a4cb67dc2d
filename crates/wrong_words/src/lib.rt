// What is wrong with a datagram, in words for people who have not read document 01: the layer, and the sentence of a refusal's number.
#![tactic(auto)]

ghost use Rattle.std.specs.Prelude.{◌≡◌};
ghost use Rattle.text.specs.Put.{Put};
ghost use Rattle.wrong_words.specs.Words.{layer_words, wrong_words};

use refusal::Reason;
use text::Text;

#[tactic(auto, unfolding(crate::specs::Words::layer_words))]
fn layer_words(place: u8) -> &'static [u8]
    ensures { result.now ≡ layer_words place }
{
    match place {
        refusal::PREAMBLE => b"preamble",
        refusal::ROOT => b"root layer",
        refusal::FRAMING => b"framing layer",
        refusal::DMP => b"DMP layer",
        refusal::DISCOVERY => b"discovery layer",
        _ => b"universe list",
    }
}

// The layer at a place.
pub fn put_layer(out: &mut Text, place: u8)
    ensures { Put out.old out.new (layer_words place) }
{
    out.put(layer_words(place));
}

#[tactic(auto, unfolding(crate::specs::Words::wrong_words))]
fn wrong_words(reason: Reason) -> &'static [u8]
    ensures { result.now ≡ wrong_words reason }
{
    match reason {
        Reason::TooShort(_) => b"there are too few bytes left for its start",
        Reason::NotAllowed(_) => b"a field has a value that is not allowed",
        Reason::Flags => b"the flags are not 0x70",
        Reason::Vector(_) => b"the vector is none of the layer's",
        Reason::Length(_) => b"the length is not allowed",
        Reason::NameNotEnded => b"the name has no zero behind it",
        Reason::NameNotUtf8 => b"the name is not UTF-8",
        Reason::Priority => b"the priority is above 200",
        Reason::SyncAddress(_) => b"the synchronization address is out of range",
        Reason::Universe => b"the universe is out of range",
        Reason::Page => b"the page is above the last page",
        Reason::Order => b"the universes are not strictly ascending",
        Reason::Missing(_) => b"the layer is too short for its fields",
        Reason::Beyond(_) => b"the length is beyond the bytes that are left for the layer",
        Reason::CountDiffers => b"the count is not the one that the length says",
        Reason::LengthDiffers => {
            b"the length is not the number of bytes that are left for the layer"
        }
        Reason::NoStartCode => b"the count is 0, so there is no start code",
    }
}

// The sentence of a refusal's number.
pub fn put_wrong(out: &mut Text, reason: Reason)
    ensures { Put out.old out.new (wrong_words reason) }
{
    out.put(wrong_words(reason));
}
