// What the machines that a script names answer.
ghost use Rattle.console.specs.Stations.{ModelRead, Paired, lent, named_automaton, part_automaton};
ghost use Rattle.pairs.specs.Product.{pair_of};
ghost use Rattle.words.specs.Replays.{word_of, Replayed};

use crate::named::Named;
use crate::part::{Part, station};
use machines::machine::{Summary, summarize};
use machines::refusal::Refusal;
use models::table::Table;
use pairs::pair::Pair;
use words::replay::replay;
use words::word::Letter;

// The numbers of the model file's machine and how many edges it has, or why it is refused.
pub fn read_model(file: &[u8]) -> Result<(Summary, u32), Refusal>
    ensures { ModelRead file.now result }
{
    let table = Table::read(file)?;
    Ok((summarize(&table), table.edges()))
}

// The numbers of the pair of the two parts, or why there is none.
pub fn read_pair(left: &Part, right: &Part) -> Result<Summary, Refusal>
    ensures { Paired (part_automaton left.now) (part_automaton right.now) result }
{
    let left = station(left);
    let right = station(right);
    Pair::check(&left, &right)?;
    Ok(summarize(&Pair::new(left, right)))
}

// What the word is answered on the part's machine.
pub fn replay_part(part: &Part, grid: u32, word: &[Letter]) -> Result<bool, Refusal>
    ensures { Replayed (part_automaton part.now) grid (word_of word.now) result }
{
    replay(&station(part), grid, word)
}

// What the word is answered on the pair of the two parts.
#[tactic(auto, using(crate::proofs::Replays::on_pair))]
pub fn replay_pair(left: &Part, right: &Part, grid: u32, word: &[Letter]) -> Result<bool, Refusal>
    ensures { Replayed (pair_of (part_automaton left.now) (part_automaton right.now)) grid (word_of word.now) result }
{
    replay(&Pair::new(station(left), station(right)), grid, word)
}

// What the word is answered on the machine that the parts make.
#[tactic(auto, using(crate::proofs::Replays::on_same))]
pub fn replay_named(named: Named<&Part>, grid: u32, word: &[Letter]) -> Result<bool, Refusal>
    ensures { Replayed (named_automaton (lent named.entry)) grid (word_of word.now) result }
{
    match named {
        Named::Part(part) => replay_part(part, grid, word),
        Named::Pair(left, right) => replay_pair(left, right, grid, word),
    }
}
