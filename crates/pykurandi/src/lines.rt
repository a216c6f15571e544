// One line of a script.
ghost use Rattle.std.specs.Prelude.{◌≡◌, ◌≢◌, ℕ, if◌then◌else◌, is_some, IfOk, IfErr, MatchResult, Some, None};
ghost use Rattle.std.specs.FinMap.{get};
ghost use Rattle.std.specs.List.{slice_get};
ghost use Rattle.std.proofs.Props.{props};
ghost use Rattle.console.specs.Names.{Whole, stands};
ghost use Rattle.console.specs.Stations.{lent};
ghost use Rattle.scripts.specs.declared.fault.Fault.TheVariants.{Missing, Paired};

use crate::describe::{describe, print_summary};
use crate::trouble::Trouble;
use console::answer::{read_pair, replay_named};
use console::named::{Named, machine};
use console::part::Part;
use console::session::Session;
use machines::deadline::Deadline;
use scripts::fault::Fault;
use scripts::letters::steps;
use scripts::number::label_of;
use scripts::source::Source;
use scripts::statement::{DeadlineNumbers, Statement, parse};
use scripts::{digits, text};
use std::alloc::AllocError;
use std::fs;
use std::rt::Files;
use std::str::from_utf8;

// The names of a script, and where its answers are printed.
#[derive(Drop)]
pub struct Console<'a, R> {
    rt: &'a R,
    session: Session,
    // Every name stands for parts, so that no known name is missing.
    ghost whole: { Whole session } by { Prim.hlevel props },
}

impl<'a, R: Files + Print + AllocGlobal> Console<'a, R> {
    pub fn new(rt: &'a R) -> Self {
        let session = Session::new(rt.alloc());
        Console { rt, session }
    }

    // The bytes that a table is loaded from.
    fn read_source(&self, word: &[u8]) -> Result<Vec<u8>, Fault> {
        match Source::from(word) {
            Source::Empty => Ok(Vec::new(self.rt.alloc())),
            Source::Digits(written) => digits::bytes(self.rt.alloc(), written),
            Source::File(path) => {
                let path = from_utf8(path).map_err(|_| Fault::File)?;
                fs::read(self.rt, path).map_err(|_| Fault::File)
            }
        }
    }

    // The name as it is printed.
    fn text(&self, name: &[u8]) -> Result<String, AllocError> {
        String::from_utf8_lossy(self.rt.alloc(), name)
    }

    // Loads a table under the name. What builds tables stays out of line, here and below, so that a line that builds none sets
    // up no room for them.
    #[inline(never)]
    fn table(&mut self, name: &[u8], source: &[u8]) -> Result<(), Trouble> {
        let text = self.text(name)?;
        let file = self.read_source(source)?;
        match self.session.load(name, file)? {
            Ok((sum, edges)) => {
                print!(self.rt; "table {text}: ")?;
                print_summary(self.rt, sum, Some(edges))?;
            }
            Err(why) => println!(self.rt; "table {text}: {why}")?,
        }
        Ok(())
    }

    // Makes a deadline under the name.
    fn deadline(&mut self, name: &[u8], numbers: DeadlineNumbers) -> Result<(), Trouble> {
        let text = self.text(name)?;
        let DeadlineNumbers { a, b, m, c } = numbers;
        match Deadline::new(label_of(a), label_of(b), m, c) {
            Ok(deadline) => {
                self.session.define(name, Part::Deadline(deadline))?;
                println!(self.rt; "deadline {text}: ok")?;
            }
            Err(why) => println!(self.rt; "deadline {text}: {why}")?,
        }
        Ok(())
    }

    // Makes a pair under the name.
    #[inline(never)]
    fn pair(&mut self, name: &[u8], left: &[u8], right: &[u8]) -> Result<(), Trouble> {
        let text = self.text(name)?;
        let (left, left_part) = self.part(left)?;
        let (right, right_part) = self.part(right)?;
        match read_pair(left_part, right_part) {
            Ok(sum) => {
                self.session.join_parts(name, left, right)?;
                print!(self.rt; "pair {text}: ")?;
                print_summary(self.rt, sum, None)?;
            }
            Err(why) => println!(self.rt; "pair {text}: {why}")?,
        }
        Ok(())
    }

    // The table or deadline with the name, and its number.
    fn part(&self, name: &[u8]) -> Result<(usize, &Part), Fault>
        ensures ok { IfOk result (λ p. (get self.now.session.names name.now ≡ Some (Named.Part p.0)) × (slice_get self.now.session.parts p.0 ≡ Some p.1.now)) }
        ensures err { IfErr result (λ e. (e ≡ (if is_some (get self.now.session.names name.now) then Paired else Missing)) × ((i : ℕ) → get self.now.session.names name.now ≢ Some (Named.Part i))) }
    {
        match self.named(name)? {
            Named::Part(number) => {
                let part = self.session.part(number).ok_or(Fault::Missing)?;
                Ok((number, part))
            }
            Named::Pair(_, _) => Err(Fault::Paired),
        }
    }

    // The parts that the name stands for.
    fn parts(&self, name: &[u8]) -> Result<Named<&Part>, Fault>
        ensures { MatchResult result (λ what. stands self.now.session name.now ≡ Some (lent what)) (λ e. (e ≡ Missing) × (get self.now.session.names name.now ≡ None)) }
    {
        self.session
            .parts_of(self.named(name)?)
            .ok_or(Fault::Missing)
    }

    // What the name stands for.
    fn named(&self, name: &[u8]) -> Result<Named, Fault>
        ensures { MatchResult result (λ what. get self.now.session.names name.now ≡ Some what) (λ e. (e ≡ Missing) × (get self.now.session.names name.now ≡ None)) }
    {
        self.session.find(name).ok_or(Fault::Missing)
    }

    // Describes the machine with the name.
    #[inline(never)]
    fn describe(&self, name: &[u8]) -> Result<(), Trouble> {
        let text = self.text(name)?;
        describe(self.rt, text.as_str(), &machine(self.parts(name)?))?;
        Ok(())
    }

    // Replays the steps on the machine with the name.
    #[inline(never)]
    fn replay(&self, name: &[u8], grid: u32, words: &[&[u8]]) -> Result<(), Trouble> {
        let text = self.text(name)?;
        let word = steps(self.rt.alloc(), words)?;
        match replay_named(self.parts(name)?, grid, word.as_slice()) {
            Ok(true) => println!(self.rt; "replay {text}: word")?,
            Ok(false) => println!(self.rt; "replay {text}: not a word")?,
            Err(why) => println!(self.rt; "replay {text}: {why}")?,
        }
        Ok(())
    }

    // Does what the line says.
    pub fn obey(&mut self, line: &[u8]) -> Result<(), Trouble> {
        let words = text::words(self.rt.alloc(), line)?;
        match parse(words.as_slice())? {
            Statement::Blank => Ok(()),
            Statement::Table { name, source } => self.table(name, source),
            Statement::Deadline { name, numbers } => self.deadline(name, numbers),
            Statement::Pair { name, left, right } => self.pair(name, left, right),
            Statement::Describe { name } => self.describe(name),
            Statement::Replay { name, grid } => self.replay(name, grid, words.as_slice()),
        }
    }
}
