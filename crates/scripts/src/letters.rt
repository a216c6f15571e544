// The steps of a timed word.
ghost use Rattle.std.specs.Prelude.{◌≡◌, ℕ, ◌⊎◌, map, drop, MatchOption, MatchResult};
ghost use Rattle.scripts.specs.declared.fault.Fault.TheVariants.{Memory, Step};
ghost use Rattle.scripts.specs.Letters.{LetterIs, LettersAre, NoLetter};

use crate::fault::Fault;
use crate::number::{label_of, number};
use crate::text::split_once;
use std::alloc::Global;
use words::word::Letter;

// The step that a word writes: a delay, a colon and a label.
fn letter(word: &[u8]) -> Option<Letter>
    ensures { MatchOption result ((delay label : ℕ) → LetterIs word.now delay label → ⊥) (λ a. LetterIs word.now a.delay a.label) }
{
    let (delay, label) = split_once(word, b':')?;
    let delay = number(delay)?;
    let label = label_of(number(label)?);
    Some(Letter { delay, label })
}

// The steps that the words of a replay write, from the fourth on.
pub fn steps(heap: Global, words: &[&[u8]]) -> Result<Vec<Letter>, Fault>
    ensures { MatchResult result (λ v. LettersAre (drop 3 (map (λ x. x.now) words.now)) v.items) (λ e. (e ≡ Memory) ⊎ ((e ≡ Step) × NoLetter (drop 3 (map (λ x. x.now) words.now)))) }
{
    // A loop: through `map` and `try_collect` the check leaves open that the steps, or the fault, are those of the words.
    let mut all = Vec::new(heap);
    for word in words.get(3..).unwrap_or_default() {
        all.push(letter(word).ok_or(Fault::Step)?)?;
    }
    Ok(all)
}
