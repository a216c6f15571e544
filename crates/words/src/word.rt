// Timed words as they are passed, and their ranges.
ghost use Rattle.std.specs.Prelude.{◌↔◌, IsTrue};
ghost use Rattle.words.specs.Replays.{word_of, Ranged};
ghost use Rattle.words.specs.Sets.{InLetter, letter_of};

use machines::refusal::Refusal;

const MOST_PARTS: u32 = 64;

const MOST_STEPS: usize = 256;

const LONGEST_DELAY: u32 = 1_000_000_000;

const LAST_LABEL: u8 = 31;

// One step of a word: a delay in parts of a tick, and then a label.
#[derive(Clone, Copy)]
pub struct Letter {
    pub delay: u32,
    pub label: u8,
}

impl Letter {
    fn is_in_range(&self) -> bool
        ensures { IsTrue result ↔ InLetter (letter_of self.now) }
    {
        self.delay <= LONGEST_DELAY && self.label <= LAST_LABEL
    }
}

// Refuses a word that is not in range, where `grid` parts make one tick.
pub fn in_range(grid: u32, word: &[Letter]) -> Result<(), Refusal>
    ensures { Ranged grid (word_of word.now) result }
{
    if !(1..=MOST_PARTS).contains(&grid)
        || word.len() > MOST_STEPS
        || !word.iter().all(Letter::is_in_range)
    {
        return Err(Refusal::Word);
    }
    Ok(())
}
