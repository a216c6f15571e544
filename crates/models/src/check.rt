// Why a file is refused, or that it is not. Each test is that of the same record and number in specs/Format.antt.
ghost use Rattle.std.specs.Prelude.{◌≡◌, ◌^◌, ◌≤◌, length, nat_lt, MatchResult};
ghost use Rattle.models.specs.Format.{clocks_of, resets_of, count_of, framed, each_atom, atom_has_shape, edge_has_shape, atom_in_range, edge_in_range, atom_is_known, edge_is_known, try, head_verdict, edge_verdict, edges_verdict, verdict};
ghost use Rattle.models.specs.Model.{places_of};

use crate::edges::{Edges, Places};
use crate::head;
use crate::record::{AtomRecord, Record};
use machines::refusal::Refusal;

// Nothing where the test holds, and else the refusal.
fn ensure(test: bool, refusal: Refusal) -> Result<(), Refusal>
    ensures { result ≡ try test refusal (Ok tt) }
{
    test.then_some(()).ok_or(refusal)
}

impl AtomRecord<'_> {
    fn has_shape(&self) -> bool
        ensures { result ≡ atom_has_shape self.now.bytes.now self.now.at }
    {
        self.spare() == 0
    }

    fn in_range(&self) -> bool
        ensures { result ≡ atom_in_range self.now.bytes.now self.now.at }
    {
        self.comparison() <= 3 && self.constant() <= 100_000
    }

    fn is_known(&self) -> bool
        ensures { result ≡ atom_is_known self.now.bytes.now self.now.at }
    {
        self.clock() < head::clocks(self.bytes)
    }
}

impl Record<'_> {
    fn is_framed(&self) -> bool
        ensures { result ≡ framed self.now.bytes.now self.now.at }
    {
        let at = self.at as usize;
        let size = self.size() as usize;
        at + 4 <= self.bytes.len() && 4 <= size && at + size <= self.bytes.len()
    }

    fn edge_has_shape(&self) -> bool
        ensures { result ≡ edge_has_shape self.now.bytes.now self.now.at }
    {
        self.size() as usize == 12 + 8 * self.count() as usize
            && self.spare() == 0
            && (0..self.count()).all(|i| self.atom(i).has_shape())
    }

    fn edge_in_range(&self) -> bool
        ensures { result ≡ edge_in_range self.now.bytes.now self.now.at }
    {
        self.label() <= 31
            && self.count() <= 4
            && (0..self.count()).all(|i| self.atom(i).in_range())
    }

    fn edge_is_known(&self) -> bool
        ensures { result ≡ edge_is_known self.now.bytes.now self.now.at }
    {
        let locations = head::locations(self.bytes);
        self.from() < locations
            && self.to() < locations
            && self.resets_are_known()
            && (0..self.count()).all(|i| self.atom(i).is_known())
    }

    fn resets_are_known(&self) -> bool
        ensures { result ≡ nat_lt (resets_of self.now.bytes.now self.now.at) (2 ^ clocks_of self.now.bytes.now) }
    {
        // The mask has no bit past the eighth.
        let clocks = head::clocks(self.bytes).min(8);
        (self.resets() as u32) < 1 << clocks
    }

    // Why the edge is refused, where `room` more may come and the edge before it leaves `previous`.
    #[tactic(auto, unfolding(crate::specs::Format::edge_verdict))]
    fn check_edge(&self, room: usize, previous: u16) -> Result<(), Refusal>
        ensures { result ≡ edge_verdict self.now.bytes.now self.now.at room previous }
    {
        let at = self.at as usize;
        ensure(self.is_framed(), Refusal::Frame(at))?;
        ensure(self.kind() == 2 && room > 0, Refusal::Kind(at))?;
        ensure(self.edge_has_shape(), Refusal::Shape(at))?;
        ensure(self.edge_in_range(), Refusal::Range(at))?;
        ensure(self.edge_is_known(), Refusal::Missing(at))?;
        ensure(previous <= self.from(), Refusal::Order(at))
    }
}

#[tactic(auto, unfolding(crate::specs::Format::head_verdict))]
fn check_head(bytes: &[u8]) -> Result<(), Refusal>
    ensures { result ≡ head_verdict bytes.now }
{
    let record = Record { bytes, at: 0 };
    let locations = head::locations(bytes);
    ensure(record.is_framed(), Refusal::Frame(0))?;
    ensure(record.kind() == 1, Refusal::Kind(0))?;
    ensure(
        record.size() == 8 && head::spare(bytes) == 0,
        Refusal::Shape(0),
    )?;
    ensure(
        (1..=256).contains(&locations) && head::clocks(bytes) <= 4,
        Refusal::Range(0),
    )
}

// The places of the edges after the head.
#[tactic(auto, using(crate::specs::Laws::Places::by_edges), unfolding(crate::specs::Model::places_of))]
fn check_edges(bytes: &[u8]) -> Result<Places, Refusal>
    requires { (8 ≤ length bytes.now) × (length bytes.now ≤ 65536) }
    ensures { MatchResult result (λ places. (edges_verdict 1024 bytes.now 8 0 ≡ Ok tt) × (places.items ≡ places_of bytes.now)) (λ e. edges_verdict 1024 bytes.now 8 0 ≡ Err e) }
{
    let mut places = Places::new();
    let mut at = 8;
    let mut previous = 0;
    // No iterator: each step goes by a length that was just tested.
    while (at as usize) < bytes.len() {
        let edge = Record { bytes, at };
        edge.check_edge(places.remaining_capacity(), previous)?;
        places.push(at);
        previous = edge.from();
        at += edge.size() as u32;
    }
    Ok(places)
}

// The whole file.
#[tactic(auto, using(crate::specs::Laws::Files::head_from), unfolding(crate::specs::Format::verdict))]
pub(crate) fn check_file<'a>(bytes: &'a [u8]) -> Result<Edges<'a>, Refusal>
    ensures { MatchResult result (λ edges. edges.bytes.now ≡ bytes.now) (λ e. verdict bytes.now ≡ Err e) }
{
    ensure(bytes.len() <= 65_536, Refusal::Frame(0))?;
    ensure(!bytes.is_empty(), Refusal::Kind(0))?;
    check_head(bytes)?;
    let places = check_edges(bytes)?;
    Ok(Edges::new(bytes, places))
}
