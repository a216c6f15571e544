// Bytes written in hexadecimal.
ghost use Rattle.std.specs.Prelude.{◌≡◌, ◌⊎◌, MatchResult};
ghost use Rattle.scripts.specs.declared.fault.Fault.TheVariants.{Hex, Memory};
ghost use Rattle.scripts.specs.Numbers.{IsHex, unhexed};

use crate::fault::Fault;
use std::alloc::Global;

// The bytes that a text writes, two digits each.
#[tactic(auto, using(crate::proofs::Decodes::decoding))]
pub fn bytes(heap: Global, text: &[u8]) -> Result<Vec<u8>, Fault>
    ensures { MatchResult result (λ v. IsHex text.now × (v.items ≡ unhexed text.now)) (λ e. (e ≡ Memory) ⊎ ((e ≡ Hex) × (IsHex text.now → ⊥))) }
{
    Ok(hex::decode(heap, text)?)
}
