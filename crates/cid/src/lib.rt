// CIDs, sixteen bytes that name a component: whether two are the same.
#![tactic(auto)]

ghost use Rattle.std.specs.Prelude.{◌≡◌};
ghost use Rattle.refusal.specs.Check.{outcome};
ghost use Rattle.cid.specs.Same.{same_cid};

#[tactic(auto, using(crate::proofs::Laws::byte_for_byte))]
pub fn same(a: [u8; 16], b: [u8; 16]) -> bool
    ensures { result ≡ outcome (same_cid a b) }
{
    a == b
}
