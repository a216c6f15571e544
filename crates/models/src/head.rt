// The fields of the head, with which a file begins.
ghost use Rattle.std.specs.Prelude.{◌≡◌};
ghost use Rattle.models.specs.Numbers.{byte};
ghost use Rattle.models.specs.Format.{locations_of, clocks_of};

use crate::numbers::{byte_at, u16_at};

pub(crate) fn locations(bytes: &[u8]) -> u16
    ensures { result ≡ locations_of bytes.now }
{
    u16_at(bytes, 4)
}

pub(crate) fn clocks(bytes: &[u8]) -> u8
    ensures { result ≡ clocks_of bytes.now }
{
    byte_at(bytes, 6)
}

pub(crate) fn spare(bytes: &[u8]) -> u8
    ensures { result ≡ byte bytes.now 7 }
{
    byte_at(bytes, 7)
}
