// Where the edges of an accepted file stand, so that each question takes a few reads.
ghost use Rattle.std.specs.Prelude.{◌≡◌, ℕ, ◌<◌, ◌≤◌, length, slice_index};
ghost use Rattle.models.specs.Format.{locations_of, from_of, Accepted};
ghost use Rattle.models.specs.Model.{places_of, places_at, below, widest, labels_of};

use crate::head;
use crate::record::Record;
use arrayvec::ArrayVec;

// The places of edges; no file has more than these.
pub(crate) type Places = ArrayVec<u32, 1024>;

#[derive(Drop)]
pub(crate) struct Edges<'a> {
    pub bytes: &'a [u8],
    // In the order of the file.
    places: Places,
    // For each location, how many edges leave a lower one, so that a question costs the same however long the file is.
    first: [u16; 257],
    ghost accepted: { Accepted bytes.now },
    ghost listed: { places.items ≡ places_of bytes.now },
    ghost counted: { (l : ℕ) → l < 257 → slice_index first l ≡ below bytes.now l },
}

// How many of the edges at these places leave a location below `location`, where the first `known` do.
fn count_below(bytes: &[u8], places: &[u32], location: usize, known: usize) -> usize
    requires accepted { (Accepted bytes.now) × (places.now ≡ places_of bytes.now) }
    requires known { (known ≤ length places.now) × ((k : ℕ) → k < known → from_of bytes.now (slice_index places.now k) < location) }
    ensures count { result ≡ below bytes.now location }
    ensures few { result ≤ 1024 }
    ensures known { (result ≤ length places.now) × ((k : ℕ) → k < result → from_of bytes.now (slice_index places.now k) < location) }
{
    let more = places[known..].iter().position(|at| (Record { bytes, at: *at }.from() as usize)
        >= location);
    match more {
        Some(more) => known + more,
        None => places.len(),
    }
}

impl<'a> Edges<'a> {
    pub(crate) fn new(bytes: &'a [u8], places: Places) -> Edges<'a>
        requires { (Accepted bytes.now) × (places.items ≡ places_of bytes.now) }
        ensures { result.bytes.now ≡ bytes.now }
    {
        let mut first = [0; 257];
        // From one location to the next the count goes on, so that each edge is passed once.
        let mut count = 0;
        for (l, slot) in first.iter_mut().enumerate() {
            count = count_below(bytes, &places, l, count);
            *slot = count as u16;
        }
        Edges {
            bytes,
            places,
            first,
        }
    }

    // The record at a place of the file.
    pub(crate) fn record(&self, at: u32) -> Record<'a>
        ensures bytes { result.bytes ≡ self.now.bytes }
        ensures at { result.at ≡ at }
    {
        Record {
            bytes: self.bytes,
            at,
        }
    }

    // How many edges there are.
    pub(crate) fn len(&self) -> u32
        ensures { result ≡ length (places_of self.now.bytes.now) }
    {
        self.places.len() as u32
    }

    // The places of the edges that leave `location`.
    #[tactic(auto, using(crate::specs::Laws::Counts::of_leaving))]
    pub(crate) fn leaving(&self, location: u32) -> &[u32]
        ensures { result.now ≡ places_at self.now.bytes.now location }
    {
        // No file has more locations than that.
        if location >= 256 {
            return &[];
        }
        let l = location as usize;
        &self.places[self.first[l] as usize..self.first[l + 1] as usize]
    }

    // How many edges leave `location`.
    #[tactic(auto, using(crate::specs::Laws::Models::few_leaving))]
    pub(crate) fn count(&self, location: u32) -> u32
        ensures { result ≡ length (places_at self.now.bytes.now location) }
    {
        self.leaving(location).len() as u32
    }

    // The largest number of edges that leave a location.
    pub(crate) fn width(&self) -> u32
        ensures { result ≡ widest self.now.bytes.now (locations_of self.now.bytes.now) }
    {
        let locations = head::locations(self.bytes);
        (0..locations as u32)
            .map(|l| self.count(l))
            .max()
            .unwrap_or(0)
    }

    // The labels on edges, as a mask.
    pub(crate) fn labels(&self) -> u32
        ensures { result ≡ labels_of self.now.bytes.now }
    {
        self.places
            .iter()
            .fold(0, |mask, at| mask | 1u32 << self.record(*at).label())
    }
}
