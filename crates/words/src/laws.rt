// Laws of the runs of any machine, and of the words of a pair.
ghost use Rattle.std.specs.Prelude.{◌≡◌, true};
ghost use Rattle.machines.specs.Automaton.{Automaton};
ghost use Rattle.pairs.specs.Product.{fits_limits};
ghost use Rattle.words.specs.PairWords.{PairWords};
ghost use Rattle.words.specs.Theorems.{EmptyIsWord, PrefixIsWord, RunsJoin};

use machines::machine::Machine;

// The empty word is every machine's, a prefix of a word is a word, and runs are cut and joined.
pub fn run_laws<M: Machine>(m: &M)
    ensures empty { EmptyIsWord (M.meaning m.now) }
    ensures prefix { PrefixIsWord (M.meaning m.now) }
    ensures join { RunsJoin (M.meaning m.now) }
{}

// The words of a pair are what its parts allow.
pub fn pair_words<L: Machine, R: Machine>(left: &L, right: &R)
    ensures { fits_limits (L.Machine.meaning left.now) (R.Machine.meaning right.now) ≡ true → PairWords (L.Machine.meaning left.now) (R.Machine.meaning right.now) }
{}
