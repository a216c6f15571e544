// One of two machines.
ghost use Rattle.std.specs.Prelude.{◌≡◌, if◌then◌else◌};
ghost use Rattle.machines.specs.declared.choice.Choice.TheVariants.{Both, First, Second};
ghost use Rattle.machines.specs.Choice.{taken};
ghost use Rattle.machines.specs.Laws.Choices.{chosen_lawful};

use crate::atom::Atom;
use crate::machine::{Head, Machine};

// A machine whose kind is known only as the program runs.
// Not the library's Either: callers match on first and second.
#[derive(Clone, Copy, PartialEq, Eq, Debug, Drop)]
pub enum Choice<A, B> {
    First(A),
    Second(B),
    // Two machines, and whether the second is taken.
    Both(A, B, bool),
}

impl<A, B> Choice<A, B> {
    // The second machine where it is taken, and else the first.
    // Both are kept, since a machine may be of a kind that cannot be let go.
    pub fn new(first: A, second: B, takes: bool) -> Self
        ensures both { result ≡ Both first second takes }
        ensures takes { taken result ≡ (if takes then Second second else First first) }
    {
        Choice::Both(first, second, takes)
    }
}

// A match each: a macro for the seven would be no plainer.
impl<A: Machine, B: Machine> Machine for Choice<A, B> {
    ghost meaning = { elim [
      | First m ↦ A.Machine.meaning m
      | Second m ↦ B.Machine.meaning m
      | Both first second takes ↦ if takes then B.Machine.meaning second else A.Machine.meaning first
    ] };

    ghost lawful = { elim [
      | First m ↦ A.Machine.lawful m
      | Second m ↦ B.Machine.lawful m
      | Both first second takes ↦ chosen_lawful takes (B.Machine.lawful second) (A.Machine.lawful first)
    ] };

    fn locations(&self) -> u32 {
        match self {
            Choice::First(m) | Choice::Both(m, _, false) => m.locations(),
            Choice::Second(m) | Choice::Both(_, m, true) => m.locations(),
        }
    }

    fn clocks(&self) -> u8 {
        match self {
            Choice::First(m) | Choice::Both(m, _, false) => m.clocks(),
            Choice::Second(m) | Choice::Both(_, m, true) => m.clocks(),
        }
    }

    fn width(&self) -> u32 {
        match self {
            Choice::First(m) | Choice::Both(m, _, false) => m.width(),
            Choice::Second(m) | Choice::Both(_, m, true) => m.width(),
        }
    }

    fn labels(&self) -> u32 {
        match self {
            Choice::First(m) | Choice::Both(m, _, false) => m.labels(),
            Choice::Second(m) | Choice::Both(_, m, true) => m.labels(),
        }
    }

    fn edge_count(&self, location: u32) -> Option<u32> {
        match self {
            Choice::First(m) | Choice::Both(m, _, false) => m.edge_count(location),
            Choice::Second(m) | Choice::Both(_, m, true) => m.edge_count(location),
        }
    }

    fn edge_head(&self, location: u32, k: u32) -> Option<Head> {
        match self {
            Choice::First(m) | Choice::Both(m, _, false) => m.edge_head(location, k),
            Choice::Second(m) | Choice::Both(_, m, true) => m.edge_head(location, k),
        }
    }

    fn atom(&self, location: u32, k: u32, i: u32) -> Option<Atom> {
        match self {
            Choice::First(m) | Choice::Both(m, _, false) => m.atom(location, k, i),
            Choice::Second(m) | Choice::Both(_, m, true) => m.atom(location, k, i),
        }
    }
}
