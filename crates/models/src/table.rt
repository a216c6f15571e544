// A model over the bytes of its file, which are lent and never copied.
ghost use Rattle.std.specs.Prelude.{◌≡◌, ◌≤◌, true, length, IfSome, MatchOption, MatchResult, is_ok, if◌then◌else◌, Decides, ◌≢◌};
ghost use Rattle.std.specs.List.{slice_get};
ghost use Rattle.machines.specs.Automaton.{bare};
ghost use Rattle.models.specs.Format.{locations_of, LawfulFile, verdict};
ghost use Rattle.models.specs.Model.{places_of, places_at, widest, labels_of, model};
ghost use Rattle.models.specs.Laws.Models.{model_lawful};

use crate::check::check_file;
use crate::edges::Edges;
use crate::head;
use crate::record::Record;
use machines::atom::Atom;
use machines::machine::{Head, Machine};
use machines::refusal::Refusal;

// The head alone: one location, no clock and no edge.
static BARE: [u8; 8] = [8, 0, 1, 0, 1, 0, 0, 0];

// The file is accepted, so no edge is to a location or on a clock that there is not.
#[derive(Drop)]
pub struct Table<'a> {
    edges: Edges<'a>,
    width: u32,
    labels: u32,
    ghost widest: { width ≡ widest edges.bytes.now (locations_of edges.bytes.now) },
    ghost listed: { labels ≡ labels_of edges.bytes.now },
}

impl<'a> Table<'a> {
    // One location, no clock and no edge.
    pub fn bare() -> Table<'a>
        ensures { model result.edges.bytes.now ≡ bare }
    {
        Table::read(&BARE).unwrap()
    }

    // The table of the file, or why it is refused.
    #[tactic(auto, using(crate::specs::Laws::Files::lawful_from, crate::specs::Laws::Files::lawful_to))]
    pub fn read(file: &'a [u8]) -> Result<Table<'a>, Refusal>
        ensures answer { MatchResult result (λ t. t.edges.bytes.now ≡ file.now) (λ e. verdict file.now ≡ Err e) }
        ensures lawful { Decides (is_ok result) (LawfulFile file.now) }
    {
        let edges = check_file(file)?;
        let width = edges.width();
        let labels = edges.labels();
        Ok(Table {
            edges,
            width,
            labels,
        })
    }

    // Takes the file in the place of the table's bytes, or refuses it and leaves the table as it was.
    pub fn load(&mut self, file: &'a [u8]) -> Result<(), Refusal>
        ensures answer { result ≡ verdict file.now }
        ensures lawful { Decides (is_ok result) (LawfulFile file.now) }
        ensures after { self.new.edges.bytes.now ≡ (if is_ok result then file.now else self.old.edges.bytes.now) }
        ensures kept { (is_ok result ≢ true) → self.new ≡ self.old }
    {
        *self = Table::read(file)?;
        Ok(())
    }

    // How many edges there are.
    pub fn edges(&self) -> u32
        ensures { result ≡ length (places_of self.now.edges.bytes.now) }
    {
        self.edges.len()
    }

    // The k-th edge that leaves `location`.
    fn edge(&self, location: u32, k: u32) -> Option<Record<'a>>
        ensures edge { MatchOption result (slice_get (places_at self.now.edges.bytes.now location) k ≡ None) (λ edge. (edge.bytes.now ≡ self.now.edges.bytes.now) × (slice_get (places_at self.now.edges.bytes.now location) k ≡ Some edge.at)) }
        ensures within { IfSome result (λ edge. edge.at ≤ 65536) }
    {
        let at = self.edges.leaving(location).get(k as usize)?;
        Some(self.edges.record(*at))
    }
}

#[tactic(auto, using(crate::specs::Laws::Questions::answers))]
impl<'a> Machine for Table<'a> {
    ghost meaning = { λ t. model t.edges.bytes.now };

    ghost lawful = { λ t. model_lawful t.edges.bytes.now t.edges.accepted };

    fn locations(&self) -> u32 {
        head::locations(self.edges.bytes) as u32
    }

    fn clocks(&self) -> u8 {
        head::clocks(self.edges.bytes)
    }

    fn width(&self) -> u32 {
        self.width
    }

    fn labels(&self) -> u32 {
        self.labels
    }

    fn edge_count(&self, location: u32) -> Option<u32> {
        if location >= self.locations() {
            return None;
        }
        Some(self.edges.count(location))
    }

    fn edge_head(&self, location: u32, k: u32) -> Option<Head> {
        let edge = self.edge(location, k)?;
        Some(edge.edge_head())
    }

    fn atom(&self, location: u32, k: u32, i: u32) -> Option<Atom> {
        let edge = self.edge(location, k)?;
        if i >= edge.count() as u32 {
            return None;
        }
        Some(edge.atom(i as u8).read())
    }
}
