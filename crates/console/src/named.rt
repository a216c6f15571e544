// What a name of a script stands for, and the machine itself.
ghost use Rattle.std.specs.Prelude.{◌≡◌};
ghost use Rattle.console.specs.Stations.{lent, machine_automaton, named_automaton};

use crate::part::{Part, Station, station};
use machines::choice::Choice;
use pairs::pair::Pair;

// A table or a deadline, or the pair of two: by the numbers that they have in a session, or the parts themselves.
#[derive(Clone, Copy, Drop)]
pub enum Named<P = usize> {
    Part(P),
    Pair(P, P),
}

// A table or a deadline, or the product of two.
pub type NamedMachine<'a> = Choice<Station<'a>, Pair<Station<'a>, Station<'a>>>;

// The machine that the parts make.
pub fn machine<'a>(named: Named<&'a Part>) -> NamedMachine<'a>
    ensures { machine_automaton result ≡ named_automaton (lent named.entry) }
{
    match named {
        Named::Part(part) => Choice::First(station(part)),
        Named::Pair(left, right) => Choice::Second(Pair::new(station(left), station(right))),
    }
}
