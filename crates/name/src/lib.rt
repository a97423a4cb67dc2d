// Source names: where one ends in its field, and whether its bytes are well-formed UTF-8.
#![tactic(auto)]

mod utf8;
mod walk;
mod words;

ghost use Rattle.std.specs.Prelude.{◌≡◌, ◌≤◌, take, length as list_length, Err};
ghost use Rattle.std.proofs.lemmas.List.Edits.{sets};
ghost use Rattle.refusal.specs.Check.{refusal as check_refusal, checked_of};
ghost use Rattle.name.specs.Name.{source_name_of, written_name_checks, name_bytes};

use refusal::Refusal;
pub use utf8::whole_characters;
use wire::constants::E131_SOURCE_NAME_FIELD_LENGTH;

// Refuses a name that fits a field, and tells how many of its leading bytes are good.
fn malformed<T>(number: u8, place: u8, good: usize) -> Result<T, Refusal>
    requires { good ≤ 64 }
    ensures { result ≡ Err (check_refusal number place good) }
{
    refusal::refuse(number, place, good as u32)
}

// What follows the name's zero is not looked at.
fn name_in(field: &[u8]) -> Result<usize, Refusal>
    requires { list_length field.now ≤ 64 }
    ensures { result ≡ source_name_of field.now }
{
    let text = walk::walk(field);
    if field.len() <= text.len {
        return refusal::refuse(refusal::NAME_NOT_TERMINATED, refusal::FRAMING, 0);
    }
    if text.whole != text.len {
        return malformed(refusal::NAME_NOT_UTF8, refusal::FRAMING, text.whole);
    }
    Ok(text.len)
}

// How many bytes the name in a field has. A field has 64 bytes: what is lent behind them is not looked at.
pub fn parse_source_name_str(field: &[u8]) -> Result<usize, Refusal>
    ensures { result ≡ source_name_of (take 64 field.now) }
{
    name_in(&field[0..wire::least(field.len(), E131_SOURCE_NAME_FIELD_LENGTH)])
}

// Whether a name may be written: it has to leave room for a zero in its field.
pub fn check_source_name(name: &[u8]) -> Result<(), Refusal>
    ensures { result ≡ checked_of (written_name_checks name.now) }
{
    if E131_SOURCE_NAME_FIELD_LENGTH <= name.len() {
        return refusal::refuse(refusal::NAME_TOO_LONG, refusal::NOWHERE, 0);
    }
    let text = walk::walk(name);
    if text.len < name.len() {
        return refusal::refuse(refusal::NAME_HAS_ZERO, refusal::NOWHERE, 0);
    }
    if text.whole != text.len {
        return malformed(refusal::WRITTEN_NAME_NOT_UTF8, refusal::NOWHERE, text.whole);
    }
    Ok(())
}

// Writes the field at `at`: the name, and zeros up to its 64 bytes.
pub fn pack_source_name(buf: &mut [u8], at: usize, name: &[u8])
    ensures { buf.new ≡ sets buf.old at (name_bytes name.now) }
{
    let mut field = [0; E131_SOURCE_NAME_FIELD_LENGTH];
    wire::copy(&mut field, 0, name);
    wire::copy(buf, at, &field);
}
