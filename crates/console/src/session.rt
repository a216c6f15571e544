// The names of a script and what they stand for.
ghost use Rattle.std.specs.Prelude.{◌≡◌, ◌<◌, [], length, take, Some, is_ok, IfOk, OnOk, OnErr};
ghost use Rattle.std.specs.List.{slice_get};
ghost use Rattle.std.specs.Option.{option_map};
ghost use Rattle.std.specs.FinMap.{empty, get, insert};
ghost use Rattle.console.specs.Stations.{ModelRead, lent, named_automaton, part_automaton};
ghost use Rattle.pairs.specs.Product.{pair_of};

use crate::answer::read_model;
use crate::named::Named;
use crate::part::{Part, owned};
use machines::machine::Summary;
use machines::refusal::Refusal;
use std::alloc::{AllocError, Global};
use std::collections::BTreeMap;
use std::marker::Model;
use std::rc::Rc;

// A name may be given again, and then stands for what it was given last; a pair keeps the parts that it was made of.
#[derive(Drop)]
pub struct Session {
    heap: Global,
    parts: Vec<Part>,
    names: BTreeMap<Vec<u8>, Named>,
}

impl Model for Session {
    ghost use Rattle.std.specs.Prelude.{refl};
    ghost use Rattle.console.specs.Names.{Contents, read};
    ghost use Rattle.std.specs.FinMap.{code};
    ghost use Rattle.std.specs.Coded.{code_by, coded×, coded_list, coded_ℕ};
    ghost use Rattle.std.specs.Borrow.{usize as number};
    ghost use Rattle.console.specs.contracts.part.Part as part;
    ghost use Rattle.console.specs.contracts.named.Named as named;

    ghost Value = { Contents };

    ghost coded = { code_by _ (coded× (coded_list part.the_row.coded) (code (coded_list coded_ℕ) (named.the_row number).coded)) (λ s. (s.parts, s.names)) (λ s. record { parts = s.0; names = s.1 }) (λ _. refl) };

    ghost view = { λ s. record { parts = s.parts.items; names = read s.names } };
}

impl Session {
    ghost use Rattle.console.specs.Names.{Joined, Kept, Loaded, Whole, defined, joined, parts_of, stands};

    pub fn new(heap: Global) -> Session
        ensures empty { (result.parts ≡ []) × (result.names ≡ empty) }
        ensures whole { Whole result }
    {
        Session {
            heap,
            parts: Vec::new(heap),
            names: BTreeMap::new(heap),
        }
    }

    // What the name stands for.
    #[tactic(auto, using(crate::proofs::Entries::reading))]
    pub fn find(&self, name: &[u8]) -> Option<Named>
        ensures { result ≡ get self.now.names name.now }
    {
        self.names.get(name).copied()
    }

    // The part of this number.
    pub fn part(&self, i: usize) -> Option<&Part>
        ensures { option_map (λ x. x.now) result ≡ slice_get self.now.parts i }
    {
        self.parts.get(i)
    }

    // The parts of these numbers, or none where a number is that of no part.
    pub fn parts_of(&self, named: Named) -> Option<Named<&Part>>
        ensures { option_map lent result ≡ parts_of self.now.parts named }
    {
        match named {
            Named::Part(i) => Some(Named::Part(self.part(i)?)),
            Named::Pair(i, j) => Some(Named::Pair(self.part(i)?, self.part(j)?)),
        }
    }

    // Gives the name to what there is. Where memory fails nothing changes.
    #[tactic(auto, using(crate::proofs::Entries::reading))]
    fn bind(&mut self, name: &[u8], what: Named) -> Result<(), AllocError>
        ensures parts { self.new.parts ≡ self.old.parts }
        ensures names { OnOk result (self.new.names ≡ insert self.old.names name.now what) }
        ensures err { OnErr result (self.new ≡ self.old) }
    {
        let name = Vec::from_slice(self.heap, name)?;
        self.names.insert(name, what)?;
        Ok(())
    }

    // Gives the name to a new part. Where memory fails nothing changes.
    pub fn define(&mut self, name: &[u8], part: Part) -> Result<(), AllocError>
        ensures ok { OnOk result (self.new ≡ defined self.old name.now part) }
        ensures given { OnOk result ((stands self.new name.now ≡ Some (Named.Part part)) × Kept name.now self.old self.new) }
        ensures whole { Whole self.old → Whole self.new }
        ensures err { OnErr result (self.new ≡ self.old) }
    {
        let number = self.parts.len();
        self.parts.push(part)?;
        let bound = self.bind(name, Named::Part(number));
        if bound.is_err() {
            self.parts.truncate(number);
        }
        bound
    }

    // Loads a table under the name and answers its numbers. Where the file is refused the name stands for what it did, and a
    // new name for the bare table.
    pub fn load(
        &mut self,
        name: &[u8],
        file: Vec<u8>,
    ) -> Result<Result<(Summary, u32), Refusal>, AllocError>
        ensures answer { IfOk result (λ a. ModelRead file.items a) }
        ensures names { IfOk result (λ a. Loaded (is_ok a) name.now (Part.Table file) self.old self.new) }
        ensures whole { Whole self.old → Whole self.new }
        ensures err { OnErr result (self.new ≡ self.old) }
    {
        match read_model(file.as_slice()) {
            Ok(numbers) => {
                self.define(name, Part::Table(file))?;
                Ok(Ok(numbers))
            }
            Err(why) if self.find(name).is_some() => Ok(Err(why)),
            Err(why) => {
                self.define(name, Part::Bare)?;
                Ok(Err(why))
            }
        }
    }

    // Gives the name to the pair of the parts of these numbers. Where memory fails nothing changes.
    pub fn join_parts(&mut self, name: &[u8], left: usize, right: usize) -> Result<(), AllocError>
        ensures parts { self.new.parts ≡ self.old.parts }
        ensures names { OnOk result (self.new.names ≡ insert self.old.names name.now (Named.Pair left right)) }
        ensures given { OnOk result ((stands self.new name.now ≡ parts_of self.old.parts (Named.Pair left right)) × Kept name.now self.old self.new) }
        ensures whole { Whole self.old → left < length self.old.parts → right < length self.old.parts → Whole self.new }
        ensures err { OnErr result (self.new ≡ self.old) }
    {
        self.bind(name, Named::Pair(left, right))
    }

    // Takes two parts in and gives the name to their pair. Where memory fails they may stay past the others.
    fn join_new(&mut self, name: &[u8], left: Part, right: Part) -> Result<(), AllocError>
        ensures ok { OnOk result (self.new ≡ joined self.old name.now left right) }
        ensures err { OnErr result ((take (length self.old.parts) self.new.parts ≡ self.old.parts) × (self.new.names ≡ self.old.names)) }
    {
        let first = self.parts.len();
        self.parts.push(left)?;
        let second = self.parts.len();
        self.parts.push(right)?;
        self.join_parts(name, first, second)
    }

    // Gives the name to the pair of two parts that others may keep too; the session takes a copy then. Where memory fails nothing
    // changes.
    pub fn join(&mut self, name: &[u8], left: Rc<Part>, right: Rc<Part>) -> Result<(), AllocError>
        ensures ok { OnOk result (Joined self.old name.now left.value right.value self.new) }
        ensures given { OnOk result ((option_map named_automaton (stands self.new name.now) ≡ Some (pair_of (part_automaton left.value) (part_automaton right.value))) × Kept name.now self.old self.new) }
        ensures whole { Whole self.old → Whole self.new }
        ensures err { OnErr result (self.new ≡ self.old) }
    {
        let left = owned(left)?;
        let right = owned(right)?;
        let before = self.parts.len();
        let joined = self.join_new(name, left, right);
        if joined.is_err() {
            self.parts.truncate(before);
        }
        joined
    }
}

#[cfg(test)]
mod tests {
    use super::*;
    use crate::named::machine;
    use machines::deadline::Deadline;
    use machines::machine::Machine;
    use std::test::Fail;

    // A model file of so many locations and no edge.
    fn model(heap: Global, locations: u8) -> Result<Vec<u8>, AllocError> {
        Vec::from_slice(heap, &[8, 0, 1, 0, locations, 0, 0, 0])
    }

    // How many locations the machine with the name has.
    fn locations(session: &Session, name: &[u8]) -> Option<u32> {
        let named = session.find(name)?;
        let parts = session.parts_of(named)?;
        Some(machine(parts).locations())
    }

    // The number of the part with the name.
    fn number(session: &Session, name: &[u8]) -> Result<usize, Fail> {
        match session.find(name) {
            Some(Named::Part(number)) => Ok(number),
            _ => Err("no part".into()),
        }
    }

    #[test]
    fn names_are_given(rt: HostRuntime) -> Result<(), Fail> {
        let heap = rt.alloc();
        let mut session = Session::new(heap);
        assert_eq!(rt; locations(&session, b"door"), None);
        session.load(b"door", model(heap, 3)?)??;
        session.define(b"rule", Part::Deadline(Deadline::new(0, 1, 3, 5)?))?;
        let door = number(&session, b"door")?;
        let rule = number(&session, b"rule")?;
        session.join_parts(b"ruled", door, rule)?;
        assert_eq!(rt; locations(&session, b"door"), Some(3));
        assert_eq!(rt; locations(&session, b"rule"), Some(2));
        assert_eq!(rt; locations(&session, b"ruled"), Some(6));
        Ok(())
    }

    #[test]
    fn shared_parts_are_joined(rt: HostRuntime) -> Result<(), Fail> {
        let heap = rt.alloc();
        let mut session = Session::new(heap);
        let door = Rc::new(heap, Part::Table(model(heap, 3)?))?;
        let rule = Rc::new(heap, Part::Deadline(Deadline::new(0, 1, 3, 5)?))?;
        let bare = Rc::new(heap, Part::Bare)?;
        session.load(b"both", model(heap, 5)?)??;
        session.join(b"ruled", door.clone()?, rule.clone()?)?;
        session.join(b"rule", rule, bare.clone()?)?;
        session.join(b"bare", bare.clone()?, bare)?;
        session.join(b"both", door.clone()?, door)?;
        assert_eq!(rt; locations(&session, b"ruled"), Some(6));
        assert_eq!(rt; locations(&session, b"rule"), Some(2));
        assert_eq!(rt; locations(&session, b"bare"), Some(1));
        assert_eq!(rt; locations(&session, b"both"), Some(9));
        assert!(rt; matches!(session.find(b"both"), Some(Named::Pair(7, 8))));
        Ok(())
    }

    // What another thread may have.
    fn sent<T: Send + Sync>(x: T) -> T {
        x
    }

    #[test]
    fn a_session_can_be_sent(rt: HostRuntime) -> Result<(), Fail> {
        let session = sent(Session::new(rt.alloc()));
        assert_eq!(rt; locations(&session, b"door"), None);
        assert!(rt; session.parts_of(Named::Pair(0, 1)).is_none());
        Ok(())
    }

    #[test]
    fn a_pair_keeps_its_parts(rt: HostRuntime) -> Result<(), Fail> {
        let heap = rt.alloc();
        let mut session = Session::new(heap);
        session.load(b"door", model(heap, 3)?)??;
        let door = number(&session, b"door")?;
        session.join_parts(b"both", door, door)?;
        session.load(b"door", model(heap, 5)?)??;
        assert_eq!(rt; locations(&session, b"door"), Some(5));
        assert_eq!(rt; locations(&session, b"both"), Some(9));
        Ok(())
    }

    #[test]
    fn a_refused_file_leaves_the_name(rt: HostRuntime) -> Result<(), Fail> {
        let heap = rt.alloc();
        let mut session = Session::new(heap);
        session.load(b"door", model(heap, 3)?)??;
        assert!(rt; session.load(b"door", model(heap, 0)?)?.is_err());
        assert!(rt; session.load(b"shear", model(heap, 0)?)?.is_err());
        assert_eq!(rt; locations(&session, b"door"), Some(3));
        assert_eq!(rt; locations(&session, b"shear"), Some(1));
        Ok(())
    }
}
