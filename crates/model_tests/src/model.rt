// What is to be read from a file.
use crate::bytes::build;
use machines::comparison::Comparison;
use machines::machine::{self, Machine, Summary, summarize};
use models::table::Table;
use std::alloc::Global;
use std::fmt::Debug;
use std::process::Abort;
use std::test::Fail;

// A location and its number of edges.
pub type Count = (u32, Option<u32>);

// A location and an edge's number there, and its label, target, resets and number of atoms.
pub type Head = ((u32, u32), Option<machine::Head>);

// A location, an edge's number there and an atom's number, and its clock, comparison and constant.
pub type Condition = ((u32, u32, u32), Option<(u8, Comparison, u32)>);

pub struct Model {
    // The file, and its length in bytes.
    pub words: &'static str,
    pub length: usize,
    pub summary: Summary,
    pub edges: u32,
    pub counts: &'static [Count],
    pub heads: &'static [Head],
    pub atoms: &'static [Condition],
}

// Each question has the answer of its row. Names the file where it has not.
fn check<K: Debug, A: Debug + PartialEq + Drop, F: Fn(&K) -> A>(
    rt: &impl Abort,
    file: &str,
    rows: &[(K, A)],
    ask: F,
)
    requires { F.IsAlwaysCallable ask }
{
    for (question, answer) in rows {
        assert_eq!(rt; &ask(question), answer, "{question:?}; {file}");
    }
}

// The table answers as the model says.
pub fn check_table(rt: &impl Abort, t: &Table, model: &Model, file: &str) {
    assert_eq!(rt; summarize(t), model.summary, "{file}");
    assert_eq!(rt; t.edges(), model.edges, "{file}");
    check(rt, file, model.counts, |location| t.edge_count(*location));
    check(
        rt,
        file,
        model.heads,
        |(location, k)| t.edge_head(*location, *k),
    );
    check(rt, file, model.atoms, |(location, k, i)| {
        let atom = t.atom(*location, *k, *i)?;
        Some((atom.clock, atom.comparison, atom.constant))
    });
}

fn check_file(rt: &impl Abort, file: &[u8], model: &Model) {
    let mut table = Table::bare();
    assert!(rt; table.load(file).is_ok());
    check_table(rt, &table, model, model.words);
}

pub fn check_model(rt: &impl Abort, heap: Global, model: &Model) -> Result<(), Fail> {
    let file = build(heap, model.words)?;
    assert_eq!(rt; file.len(), model.length);
    check_file(rt, file.as_slice(), model);
    Ok(())
}
