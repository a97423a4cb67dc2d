// What a reader finds in a datagram, in words for people who have not read document 01.
#![tactic(auto)]

mod numbers;

ghost use Rattle.std.specs.Prelude.{◌+◌, ◌≤◌, length};
ghost use Rattle.text.specs.Put.{Put};
ghost use Rattle.finding_text.specs.Findings.{number_text, where_text, wrong_text, finding_text};

use failed_check::Fault;
use text::Text;

// The words and the number, if there is one. Where there is none no bytes are put: a place past the end is then the end.
fn put_number(out: &mut Text, words: &[u8], shown: Option<u64>)
    ensures put { Put out.old out.new (number_text words.now shown) }
    ensures shown_in_bounds { length (number_text words.now shown) ≤ length words.now + 20 }
{
    match shown {
        None => out.put(b""),
        Some(n) => out.put_field(words, n),
    }
}

// The byte and the layer.
fn put_where(out: &mut Text, byte: usize, place: u8)
    ensures put { Put out.old out.new (where_text byte place) }
    ensures place_len_bound { length (where_text byte place) ≤ 64 }
{
    out.put_field(b"refused at byte ", byte as u64);
    out.put(b" in the ");
    wrong_words::put_layer(out, place);
    out.put(b": ");
}

// What is wrong, what was wanted, what was there.
fn put_wrong(out: &mut Text, datagram: &[u8], fault: Fault)
    ensures put { Put out.old out.new (wrong_text datagram.now fault) }
    ensures fault_len_bound { length (wrong_text datagram.now fault) ≤ 180 }
{
    let reason = fault.check.reason;
    wrong_words::put_wrong(out, reason);
    out.put(b": wanted ");
    wanted_words::put_wanted(out, reason);
    let limit = numbers::resolve(numbers::limit(reason), datagram, fault);
    put_number(out, b"", limit);
    let found = numbers::resolve(numbers::found(reason), datagram, fault);
    put_number(out, b", found ", found);
}

// What is told of a datagram: which check refuses it, or that none does.
pub fn put_finding(out: &mut Text, datagram: &[u8], told: Option<Fault>)
    ensures put { Put out.old out.new (finding_text datagram.now told) }
    ensures told_len_bound { length (finding_text datagram.now told) ≤ 244 }
{
    match told {
        None => out.put(b"readable"),
        Some(fault) => {
            put_where(out, fault.check.byte, fault.refusal.place);
            put_wrong(out, datagram, fault);
        }
    }
}
