// The universe discovery layer: a page of universes, strictly ascending.
#![tactic(auto)]

ghost use Rattle.std.specs.Prelude.{true, Ok, Err, ◌≡◌, ◌+◌, ◌*◌, ◌≤◌, ◌<◌, length};
ghost use Rattle.std.proofs.lemmas.List.Edits.{sets};
ghost use Rattle.wire.specs.Fields.{u16_at};
ghost use Rattle.refusal.specs.Check.{refusal, checked_of, discovery as discovery_place};
ghost use Rattle.discovery.specs.Universes.{all_universes, list_checks, order_checks, checked_from, universe_bytes};
ghost use Rattle.discovery.specs.Layer.{discovery_of, body_of, discovery_bytes};

use pdu::VectorLength;
use refusal::Refusal;
use wire::constants::{
    E131_UNIVERSE_DISCOVERY_LAYER_MAX_LENGTH, E131_UNIVERSE_DISCOVERY_LAYER_MIN_LENGTH,
    VECTOR_UNIVERSE_DISCOVERY_UNIVERSE_LIST,
};
use wire::layout::DISCOVERY_LENGTH;

// Indexes of the fields, from the layer's first byte.
pub const E131_DISCOVERY_LAYER_PAGE_FIELD_INDEX: usize = 6;

const E131_DISCOVERY_LAYER_LAST_PAGE_FIELD_INDEX: usize = 7;

const E131_DISCOVERY_LAYER_UNIVERSE_LIST_FIELD_INDEX: usize = DISCOVERY_LENGTH;

pub const E131_UNIVERSE_FIELD_LENGTH: usize = 2;

// So many neighbours are compared at a time.
const BLOCK: usize = 16;

#[repr(C)]
#[derive(Clone, Copy, Default)]
pub struct DiscoveryFields {
    pub page: u8,
    pub last_page: u8,
}

// A layer that is read: its page, with as many universes.
#[derive(Clone, Copy)]
pub struct DiscoveryLayer {
    pub fields: DiscoveryFields,
    pub count: u16,
}

// The i-th universe of a list.
fn universe_at(p: &[u8], i: usize) -> u16
    requires { 2 * i + 2 ≤ length p.now }
    ensures { result ≡ u16_at p.now (2 * i) }
{
    let at = E131_UNIVERSE_FIELD_LENGTH * i;
    u16::from_be_bytes([p[at], p[at + 1]])
}

// Looks through a list once.
fn parse_universe_list(p: &[u8], count: usize) -> Result<(), Refusal>
    ensures { result ≡ checked_of (list_checks p.now count) }
{
    if p.len() / E131_UNIVERSE_FIELD_LENGTH < count {
        return refusal::refuse(refusal::PART_TOO_SHORT, refusal::UNIVERSE_LIST, 0);
    }
    if count == 0 {
        return Ok(());
    }
    let mut last = universe_at(p, 0);
    for i in 1..count {
        let u = universe_at(p, i);
        if u <= last {
            return refusal::refuse(
                refusal::INVALID_UNIVERSE_ORDER,
                refusal::UNIVERSE_LIST,
                u as u32,
            );
        }
        last = u;
    }
    Ok(())
}

// The layer's place, said once: at each refusal it would be no plainer.
fn refuse<T>(number: u8, value: u32) -> Result<T, Refusal>
    ensures { result ≡ Err (refusal number discovery_place value) }
{
    refusal::refuse(number, refusal::DISCOVERY, value)
}

// The checks after the layer's start.
fn parse_body(p: &[u8], length: u16, vector: u32) -> Result<DiscoveryLayer, Refusal>
    ensures { result ≡ body_of p.now length vector }
{
    if length as usize != p.len() {
        return refuse(refusal::LENGTH_DIFFERS_FROM_PART, length as u32);
    }
    if vector != VECTOR_UNIVERSE_DISCOVERY_UNIVERSE_LIST {
        return refuse(refusal::INVALID_VECTOR, vector);
    }
    if length < E131_UNIVERSE_DISCOVERY_LAYER_MIN_LENGTH {
        return refuse(refusal::INVALID_LENGTH, length as u32);
    }
    if E131_UNIVERSE_DISCOVERY_LAYER_MAX_LENGTH < length {
        return refuse(refusal::INVALID_LENGTH, length as u32);
    }
    let page = wire::byte_at(p, E131_DISCOVERY_LAYER_PAGE_FIELD_INDEX);
    let last_page = wire::byte_at(p, E131_DISCOVERY_LAYER_LAST_PAGE_FIELD_INDEX);
    if last_page < page {
        return refuse(refusal::INVALID_PAGE, 0);
    }
    let count = (length - E131_UNIVERSE_DISCOVERY_LAYER_MIN_LENGTH) / 2;
    let list = &p[E131_DISCOVERY_LAYER_UNIVERSE_LIST_FIELD_INDEX..];
    parse_universe_list(list, count as usize)?;
    Ok(DiscoveryLayer {
        fields: DiscoveryFields { page, last_page },
        count,
    })
}

// Reads the layer whose part is p.
pub fn parse(p: &[u8]) -> Result<DiscoveryLayer, Refusal>
    ensures { result ≡ discovery_of p.now }
{
    let info = pdu::pdu_info(p, VectorLength::Four, refusal::DISCOVERY)?;
    parse_body(p, info.length, info.vector)
}

// Fills `out` with the universes of a list, as many as it has room for.
pub fn copy_universes(list: &[u8], out: &mut [u16])
    ensures { out.new ≡ sets out.old 0 (all_universes list.now) }
{
    for i in 0..wire::least(out.len(), list.len() / E131_UNIVERSE_FIELD_LENGTH) {
        out[i] = universe_at(list, i);
    }
}

fn still_rising(rising: bool, last: u16, u: u16) -> bool
    ensures { result ≡ true → (rising ≡ true) × (last < u) }
{
    if last >= u {
        return false;
    }
    rising
}

// It looks at all neighbours, so that it compiles to wide comparisons.
fn all_rise(universes: &[u16]) -> bool
    requires { 0 < length universes.now }
    ensures { result ≡ true → checked_of (order_checks universes.now) ≡ Ok tt }
{
    let mut rising = true;
    for i in 1..universes.len() {
        rising = still_rising(rising, universes[i - 1], universes[i]);
    }
    rising
}

// The same of one block, from the place `at` on.
fn block_rises(universes: &[u16], at: usize) -> bool
    requires { at + 16 < length universes.now }
    ensures { result ≡ true → checked_from at universes.now ≡ checked_from (at + 16) universes.now }
{
    let mut rising = true;
    for i in at..at + BLOCK {
        rising = still_rising(rising, universes[i], universes[i + 1]);
    }
    rising
}

// Neighbours before this place rise, so that the first that do not are found without looking at each.
fn rising_front(universes: &[u16]) -> usize
    requires { 0 < length universes.now }
    ensures within { result < length universes.now }
    ensures front { checked_from 0 universes.now ≡ checked_from result universes.now }
{
    // No `for`: it goes block by block and answers where it stopped, which `step_by` with an answer behind it says in more.
    let mut at = 0;
    while BLOCK < universes.len() - at {
        if block_rises(universes, at) {
            at += BLOCK;
        } else {
            return at;
        }
    }
    at
}

// Whether universes may be written: the first two neighbours that do not rise refuse.
pub fn check_order(universes: &[u16]) -> Result<(), Refusal>
    ensures { result ≡ checked_of (order_checks universes.now) }
{
    if universes.len() == 0 {
        return Ok(());
    }
    if all_rise(universes) {
        return Ok(());
    }
    let front = rising_front(universes);
    let mut last = universes[front];
    for &u in &universes[front + 1..] {
        if last == u {
            return refusal::refuse(refusal::EQUAL_UNIVERSES, refusal::NOWHERE, 0);
        }
        if u < last {
            return refusal::refuse(refusal::FALLING_UNIVERSES, refusal::NOWHERE, 0);
        }
        last = u;
    }
    Ok(())
}

// With plain indices under one bound this compiles to wide moves.
fn put_run(buf: &mut [u8], universes: &[u16])
    requires { 2 * length universes.now ≤ length buf.old }
    ensures { buf.new ≡ sets buf.old 0 (universe_bytes universes.now) }
{
    for (i, u) in universes.iter().enumerate() {
        let at = E131_UNIVERSE_FIELD_LENGTH * i;
        let [high, low] = u.to_be_bytes();
        buf[at] = high;
        buf[at + 1] = low;
    }
}

// Any buffer: what does not fit is not written.
fn put_each(buf: &mut [u8], at: usize, universes: &[u16])
    ensures { buf.new ≡ sets buf.old at (universe_bytes universes.now) }
{
    if buf.len() < at {
        return;
    }
    for (i, u) in universes.iter().enumerate() {
        wire::put_u16(buf, at + E131_UNIVERSE_FIELD_LENGTH * i, *u);
    }
}

fn put_universes(buf: &mut [u8], at: usize, universes: &[u16])
    ensures { buf.new ≡ sets buf.old at (universe_bytes universes.now) }
{
    if buf.len() < at {
        return;
    }
    if buf.len() - at < E131_UNIVERSE_FIELD_LENGTH * universes.len() {
        put_each(buf, at, universes);
        return;
    }
    put_run(&mut buf[at..], universes);
}

// Writes the layer at `at`. It cannot refuse: whoever packs a packet has checked the universes.
pub fn pack(buf: &mut [u8], at: usize, fields: DiscoveryFields, universes: &[u16])
    ensures { buf.new ≡ sets buf.old at (discovery_bytes fields universes.now) }
{
    if buf.len() < at {
        return;
    }
    let flags = pdu::flags_and_length(
        E131_DISCOVERY_LAYER_UNIVERSE_LIST_FIELD_INDEX
            + E131_UNIVERSE_FIELD_LENGTH * universes.len(),
    );
    let [flags_0, flags_1] = flags.to_be_bytes();
    let [vector_0, vector_1, vector_2, vector_3] =
        VECTOR_UNIVERSE_DISCOVERY_UNIVERSE_LIST.to_be_bytes();
    let head = [
        flags_0,
        flags_1,
        vector_0,
        vector_1,
        vector_2,
        vector_3,
        fields.page,
        fields.last_page,
    ];
    wire::copy(buf, at, &head);
    put_universes(
        buf,
        at + E131_DISCOVERY_LAYER_UNIVERSE_LIST_FIELD_INDEX,
        universes,
    );
}
