// The records of a file and the atoms of an edge, by the names of their fields.
ghost use Rattle.std.specs.Prelude.{◌≡◌, ◌+◌, ◌^◌, ◌<◌};
ghost use Rattle.machines.specs.Comparisons.{coded};
ghost use Rattle.models.specs.Numbers.{byte, two_bytes};
ghost use Rattle.models.specs.Format.{size_of, kind_of, from_of, to_of, label_of, resets_of, count_of, place_of_atom, clock_of, comparison_of, constant_of};

use crate::numbers::{byte_at, u16_at, u32_at};
use machines::atom::Atom;
use machines::comparison::Comparison;
use machines::machine::Head;

// The record at a place of the file.
#[derive(Clone, Copy)]
pub(crate) struct Record<'a> {
    pub bytes: &'a [u8],
    pub at: u32,
}

// The atom at a place of the file.
#[derive(Clone, Copy)]
pub(crate) struct AtomRecord<'a> {
    pub bytes: &'a [u8],
    pub at: usize,
    ghost near: { at < 2 ^ 33 },
}

impl<'a> Record<'a> {
    fn byte(&self, offset: u8) -> u8
        ensures { result ≡ byte self.now.bytes.now (self.now.at + offset) }
    {
        byte_at(self.bytes, self.at as usize + offset as usize)
    }

    fn two_bytes(&self, offset: u8) -> u16
        ensures { result ≡ two_bytes self.now.bytes.now (self.now.at + offset) }
    {
        u16_at(self.bytes, self.at as usize + offset as usize)
    }

    pub(crate) fn size(&self) -> u16
        ensures { result ≡ size_of self.now.bytes.now self.now.at }
    {
        self.two_bytes(0)
    }

    pub(crate) fn kind(&self) -> u16
        ensures { result ≡ kind_of self.now.bytes.now self.now.at }
    {
        self.two_bytes(2)
    }

    // From here on of an edge. The location that it leaves.
    pub(crate) fn from(&self) -> u16
        ensures { result ≡ from_of self.now.bytes.now self.now.at }
    {
        self.two_bytes(4)
    }

    pub(crate) fn to(&self) -> u16
        ensures { result ≡ to_of self.now.bytes.now self.now.at }
    {
        self.two_bytes(6)
    }

    pub(crate) fn label(&self) -> u8
        ensures { result ≡ label_of self.now.bytes.now self.now.at }
    {
        self.byte(8)
    }

    pub(crate) fn resets(&self) -> u8
        ensures { result ≡ resets_of self.now.bytes.now self.now.at }
    {
        self.byte(9)
    }

    pub(crate) fn count(&self) -> u8
        ensures { result ≡ count_of self.now.bytes.now self.now.at }
    {
        self.byte(10)
    }

    pub(crate) fn spare(&self) -> u8
        ensures { result ≡ byte self.now.bytes.now (self.now.at + 11) }
    {
        self.byte(11)
    }

    // The label, target, resets and number of atoms.
    pub(crate) fn edge_head(&self) -> Head
        ensures { result ≡ (label_of self.now.bytes.now self.now.at, to_of self.now.bytes.now self.now.at, resets_of self.now.bytes.now self.now.at, count_of self.now.bytes.now self.now.at) }
    {
        (
            self.label(),
            self.to() as u32,
            self.resets(),
            self.count() as u32,
        )
    }

    pub(crate) fn atom(&self, i: u8) -> AtomRecord<'a>
        ensures bytes { result.bytes ≡ self.now.bytes }
        ensures at { result.at ≡ place_of_atom self.now.at i }
    {
        AtomRecord {
            bytes: self.bytes,
            at: self.at as usize + 12 + 8 * i as usize,
        }
    }
}

impl AtomRecord<'_> {
    pub(crate) fn clock(&self) -> u8
        ensures { result ≡ clock_of self.now.bytes.now self.now.at }
    {
        byte_at(self.bytes, self.at)
    }

    pub(crate) fn comparison(&self) -> u8
        ensures { result ≡ comparison_of self.now.bytes.now self.now.at }
    {
        byte_at(self.bytes, self.at + 1)
    }

    pub(crate) fn spare(&self) -> u16
        ensures { result ≡ two_bytes self.now.bytes.now (self.now.at + 2) }
    {
        u16_at(self.bytes, self.at + 2)
    }

    pub(crate) fn constant(&self) -> u32
        ensures { result ≡ constant_of self.now.bytes.now self.now.at }
    {
        u32_at(self.bytes, self.at + 4)
    }

    pub(crate) fn read(&self) -> Atom
        ensures clock { result.clock ≡ clock_of self.now.bytes.now self.now.at }
        ensures comparison { result.comparison ≡ coded (comparison_of self.now.bytes.now self.now.at) }
        ensures constant { result.constant ≡ constant_of self.now.bytes.now self.now.at }
    {
        Atom {
            clock: self.clock(),
            comparison: Comparison::from(self.comparison()),
            constant: self.constant(),
        }
    }
}
