// A machine as a script gives it, and the machine itself.
ghost use Rattle.std.specs.Prelude.{◌≡◌, IfOk};
ghost use Rattle.machines.specs.Automaton.{bare};
ghost use Rattle.machines.specs.Deadline.{deadline, DeadlineArguments};
ghost use Rattle.console.specs.Names.{made_from};
ghost use Rattle.console.specs.Stations.{part_automaton, station_automaton};

use machines::choice::Choice;
use machines::deadline::Deadline;
use models::table::Table;
use std::alloc::AllocError;
use std::rc::Rc;

// What a table or a deadline is made from.
#[derive(Clone, Drop)]
pub enum Part {
    // One bare location.
    Bare,
    // A model file; the table is bare where it is refused.
    Table(Vec<u8>),
    Deadline(Deadline),
}

impl Part {
    // The deadline of these numbers, or the bare location where they are refused.
    pub fn deadline(a: u8, b: u8, m: u32, c: u32) -> Part
        ensures lawful { DeadlineArguments a b m c → part_automaton result ≡ deadline a b m c }
        ensures refused { (DeadlineArguments a b m c → ⊥) → part_automaton result ≡ bare }
    {
        match Deadline::new(a, b, m, c) {
            Ok(deadline) => Part::Deadline(deadline),
            Err(_) => Part::Bare,
        }
    }
}

// The part itself where nobody else keeps it, and else a copy.
pub(crate) fn owned(part: Rc<Part>) -> Result<Part, AllocError>
    ensures { IfOk result (λ own. made_from own ≡ made_from part.value) }
{
    Rc::unwrap_or_clone(part)
}

// A table or a deadline.
pub type Station<'a> = Choice<Table<'a>, Deadline>;

// The machine that the part makes.
pub fn station<'a>(part: &'a Part) -> Station<'a>
    ensures { station_automaton result ≡ part_automaton part.now }
{
    match part {
        Part::Bare => Choice::First(Table::bare()),
        Part::Table(file) => {
            let table = match Table::read(file.as_slice()) {
                Ok(table) => table,
                Err(_) => Table::bare(),
            };
            Choice::First(table)
        }
        Part::Deadline(deadline) => Choice::Second(*deadline),
    }
}
