// Numbers in a slice of bytes, low byte first. A byte past the end is 0.
ghost use Rattle.std.specs.Prelude.{◌≡◌, drop};
ghost use Rattle.models.specs.Numbers.{byte, two_bytes, four_bytes};

// The bytes from a place on, of which there are none past the end.
fn rest(bytes: &[u8], at: usize) -> &[u8]
    ensures { result.now ≡ drop at bytes.now }
{
    bytes.get(at..).unwrap_or(&[])
}

pub fn byte_at(bytes: &[u8], at: usize) -> u8
    ensures { result ≡ byte bytes.now at }
{
    bytes.get(at).copied().unwrap_or(0)
}

// Each integer type has its own from_le_bytes, so there is no one function for both.
#[tactic(auto, unfolding(crate::specs::Numbers::two_bytes))]
pub fn u16_at(bytes: &[u8], at: usize) -> u16
    ensures { result ≡ two_bytes bytes.now at }
{
    let rest = rest(bytes, at);
    u16::from_le_bytes([byte_at(rest, 0), byte_at(rest, 1)])
}

#[tactic(auto, unfolding(crate::specs::Numbers::two_bytes, crate::specs::Numbers::four_bytes))]
pub fn u32_at(bytes: &[u8], at: usize) -> u32
    ensures { result ≡ four_bytes bytes.now at }
{
    let rest = rest(bytes, at);
    u32::from_le_bytes([
        byte_at(rest, 0),
        byte_at(rest, 1),
        byte_at(rest, 2),
        byte_at(rest, 3),
    ])
}
