// What every layer starts with, four bits of flags, twelve of length, then the layer's vector; and the edition of the
// standard by which layers are read.
#![tactic(auto)]

ghost use Rattle.std.specs.Prelude.{◌≡◌};
ghost use Rattle.std.proofs.lemmas.List.Edits.{sets};
ghost use Rattle.pdu.specs.Head.{size_of, vector_of, info_of, flags_field, layer_head};

use refusal::Refusal;
use wire::constants::{E131_PDU_FLAGS, E131_PDU_LENGTH_FLAGS_LENGTH};

// What the editions differ in: 2009 knows data packets only, no synchronization address and no option to
// force synchronization.
#[derive(Clone, Copy)]
pub enum Edition {
    E2018,
    E2009,
}

#[derive(Clone, Copy)]
pub enum VectorLength {
    One,
    Four,
}

// What a layer's start says.
#[derive(Clone, Copy)]
pub struct PduInfo {
    pub length: u16,
    pub vector: u32,
}

fn size_of(n: VectorLength) -> usize
    ensures { result ≡ size_of n }
{
    match n {
        VectorLength::One => 1,
        VectorLength::Four => 4,
    }
}

fn vector_of(p: &[u8], n: VectorLength) -> u32
    ensures { result ≡ vector_of n p.now }
{
    match n {
        VectorLength::One => wire::byte_at(p, E131_PDU_LENGTH_FLAGS_LENGTH) as u32,
        VectorLength::Four => wire::u32_at(p, E131_PDU_LENGTH_FLAGS_LENGTH),
    }
}

// Reads the start of the layer whose part is p; place is the layer's, for a refusal.
pub fn pdu_info(p: &[u8], n: VectorLength, place: u8) -> Result<PduInfo, Refusal>
    ensures { result ≡ info_of n place p.now }
{
    if p.len() < E131_PDU_LENGTH_FLAGS_LENGTH + size_of(n) {
        return refusal::refuse(refusal::PART_TOO_SHORT, place, 0);
    }
    let flags = wire::byte_at(p, 0) / 0x10 * 0x10;
    if flags != E131_PDU_FLAGS {
        return refusal::refuse(refusal::INVALID_FLAGS, place, flags as u32);
    }
    Ok(PduInfo {
        length: wire::u16_at(p, 0) % 0x1000,
        vector: vector_of(p, n),
    })
}

// The field that a layer is written with: the flags, and twelve bits of its length.
pub fn flags_and_length(length: usize) -> u16
    ensures { result ≡ flags_field length }
{
    E131_PDU_FLAGS as u16 * 0x100 + (length % 0x1000) as u16
}

// Writes the start of a layer with a vector of four bytes.
pub fn put_head(buf: &mut [u8], at: usize, length: usize, vector: u32)
    ensures { buf.new ≡ sets buf.old at (layer_head length vector) }
{
    let [flags_0, flags_1] = flags_and_length(length).to_be_bytes();
    let [vector_0, vector_1, vector_2, vector_3] = vector.to_be_bytes();
    let head = [flags_0, flags_1, vector_0, vector_1, vector_2, vector_3];
    wire::copy(buf, at, &head);
}
