// The deadline machine.
ghost use Rattle.std.specs.Prelude.{◌≡◌, MatchResult};
ghost use Rattle.machines.specs.Deadline.{deadline, DeadlineArguments};
ghost use Rattle.machines.specs.Refusals.{Refused};
ghost use Rattle.machines.specs.Laws.Deadlines.{deadline_lawful};

use crate::atom::Atom;
use crate::comparison::Comparison;
use crate::machine::{Head, Machine};
use crate::mask::{has_label, kth_label};
use crate::refusal::Refusal;

const LOCATIONS: u32 = 2;

const CLOCKS: u8 = 1;

// From label `a`, and until the next `b`, that `b` included, labels of `m` come only within `c` ticks of that `a`.
#[derive(Clone, Copy)]
pub struct Deadline {
    a: u8,
    b: u8,
    m: u32,
    c: u32,
    ghost ok: { DeadlineArguments a b m c },
}

impl Deadline {
    pub fn new(a: u8, b: u8, m: u32, c: u32) -> Result<Deadline, Refusal>
        ensures { MatchResult result (λ d. (d.a ≡ a) × (d.b ≡ b) × (d.m ≡ m) × (d.c ≡ c)) (λ e. Refused e 8 0 × (DeadlineArguments a b m c → ⊥)) }
    {
        if a == b || c > 100_000 || !has_label(m, a) || !has_label(m, b) {
            return Err(Refusal::Deadline);
        }
        Ok(Deadline { a, b, m, c })
    }
}

impl Machine for Deadline {
    ghost meaning = { λ d. deadline d.a d.b d.m d.c };

    ghost lawful = { λ d. deadline_lawful d.a d.b d.m d.c d.ok };

    fn locations(&self) -> u32 {
        LOCATIONS
    }

    fn clocks(&self) -> u8 {
        CLOCKS
    }

    fn width(&self) -> u32 {
        self.m.count_ones()
    }

    fn labels(&self) -> u32 {
        self.m
    }

    fn edge_count(&self, location: u32) -> Option<u32> {
        (location < LOCATIONS).then_some(self.m.count_ones())
    }

    fn edge_head(&self, location: u32, k: u32) -> Option<Head> {
        let label = kth_label(self.m, k)?;
        match location {
            0 if label == self.a => Some((label, 1, 1, 0)),
            0 => Some((label, 0, 0, 0)),
            1 if label == self.b => Some((label, 0, 0, 1)),
            1 => Some((label, 1, 0, 1)),
            _ => None,
        }
    }

    fn atom(&self, location: u32, k: u32, i: u32) -> Option<Atom> {
        let count = self.m.count_ones();
        // An `if` keeps the three tests apart for the proof; `then_some` would join them into one value.
        if location == 1 && k < count && i == 0 {
            Some(Atom {
                clock: 0,
                comparison: Comparison::AtMost,
                constant: self.c,
            })
        } else {
            None
        }
    }
}
