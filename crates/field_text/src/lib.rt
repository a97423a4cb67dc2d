// Fields as the words and numbers of a line, each with a space before it.
#![tactic(auto)]

ghost use Rattle.std.specs.Prelude.{◌≡◌, ◌++◌};
ghost use Rattle.text.specs.Put.{Put};
ghost use Rattle.text.specs.Digits.{decimal, hex};
ghost use Rattle.field_text.specs.Texts.{flag_digit, flags_text, data_fields_text, synchronization_text, page_text, refusal_text};

use discovery::DiscoveryFields;
use extended::synchronization::SynchronizationFields;
use framing::DataFields;
use refusal::Refusal;
use text::Text;

fn flag_digit(flag: bool) -> u8
    ensures { result ≡ flag_digit flag }
{
    if flag { b'1' } else { b'0' }
}

// Preview, terminated, force.
fn put_flags(out: &mut Text, fields: DataFields)
    ensures { Put out.old out.new (flags_text fields) }
{
    let digits = [
        flag_digit(fields.preview_data),
        flag_digit(fields.stream_terminated),
        flag_digit(fields.force_synchronization),
    ];
    out.put(b" flags ");
    out.put(&digits);
}

// From the priority to the universe.
pub fn put_data_fields(out: &mut Text, fields: DataFields)
    ensures { Put out.old out.new (data_fields_text fields) }
{
    out.put_field(b" prio ", fields.priority as u64);
    out.put_field(b" sync ", fields.synchronization_address as u64);
    out.put_field(b" seq ", fields.sequence_number as u64);
    put_flags(out, fields);
    out.put_field(b" univ ", fields.universe as u64);
}

pub fn put_synchronization_fields(out: &mut Text, sync: SynchronizationFields)
    ensures { Put out.old out.new (synchronization_text sync) }
{
    out.put_field(b" seq ", sync.sequence_number as u64);
    out.put_field(b" addr ", sync.synchronization_address as u64);
}

pub fn put_page(out: &mut Text, fields: DiscoveryFields)
    ensures { Put out.old out.new (page_text fields) }
{
    out.put_field(b" page ", fields.page as u64);
    out.put_field(b" last ", fields.last_page as u64);
}

// An entry's number, a word, and bytes in hex.
pub fn put_named(out: &mut Text, n: u64, word: &[u8], name: &[u8])
    ensures { Put out.old out.new (decimal n ++ (word.now ++ hex name.now)) }
{
    out.put_decimal(n);
    out.put(word);
    out.put_hex(name);
}

pub fn put_refusal(out: &mut Text, refusal: Refusal)
    ensures { Put out.old out.new (refusal_text refusal) }
{
    out.put_field(b" refused ", refusal.number as u64);
    out.put_field(b" place ", refusal.place as u64);
    out.put_field(b" value ", refusal.value as u64);
}
