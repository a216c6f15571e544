// What every machine answers, and its meaning.
ghost use Rattle.std.specs.Prelude.{◌≡◌};
ghost use Rattle.std.specs.Option.{option_map};
ghost use Rattle.machines.specs.Automaton.{Automaton, Lawful, edge_count, head_at, atom_at};
ghost use Rattle.machines.specs.Comparisons.{numbers_of};

use crate::atom::Atom;

// The label, target, resets and number of atoms of an edge.
pub type Head = (u8, u32, u8, u32);

pub trait Machine {
    // The automaton that the machine is.
    ghost meaning: { Self → Automaton };

    // That the automaton keeps every range, which each `impl` shows.
    ghost lawful: { (m : Self) → Lawful (meaning m) };

    fn locations(&self) -> u32
        ensures { result ≡ (meaning self.now).locations };

    fn clocks(&self) -> u8
        ensures { result ≡ (meaning self.now).clocks };

    // Not below the number of edges at any location.
    fn width(&self) -> u32
        ensures { result ≡ (meaning self.now).width };

    // Bit i is set where an edge has label i.
    fn labels(&self) -> u32
        ensures { result ≡ (meaning self.now).labels };

    // The number of edges that leave `location`.
    fn edge_count(&self, location: u32) -> Option<u32>
        ensures { result ≡ edge_count (meaning self.now) location };

    // The head of the k-th edge that leaves `location`.
    fn edge_head(&self, location: u32, k: u32) -> Option<Head>
        ensures { result ≡ head_at (meaning self.now) location k };

    // That edge's atom `i`.
    fn atom(&self, location: u32, k: u32, i: u32) -> Option<Atom>
        ensures { option_map numbers_of result ≡ atom_at (meaning self.now) location k i };
}

// The numbers of a machine as a whole.
#[derive(Clone, Copy, PartialEq, Eq, Debug)]
pub struct Summary {
    pub locations: u32,
    pub clocks: u8,
    pub width: u32,
    pub labels: u32,
}

// The numbers of the machine, whose meaning is lawful whatever its kind.
pub fn summarize<M: Machine>(m: &M) -> Summary
    ensures locations { result.locations ≡ (M.meaning m.now).locations }
    ensures clocks { result.clocks ≡ (M.meaning m.now).clocks }
    ensures width { result.width ≡ (M.meaning m.now).width }
    ensures labels { result.labels ≡ (M.meaning m.now).labels }
    ensures lawful { Lawful (M.meaning m.now) }
{
    Summary {
        locations: m.locations(),
        clocks: m.clocks(),
        width: m.width(),
        labels: m.labels(),
    }
}
