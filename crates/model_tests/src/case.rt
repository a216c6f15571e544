// Rows of files, and what reading each gives.
use crate::bytes::build;
use crate::files::SEVERAL;
use crate::model::check_table;
use machines::refusal::Refusal;
use models::table::Table;
use std::alloc::Global;
use std::process::Abort;
use std::test::Fail;

// The number of edges, or the number and the place of the refusal.
type Answer = Result<u32, (u8, usize)>;

fn numbers(why: Refusal) -> (u8, usize) {
    (why.number(), why.place())
}

// Loads the good file and then the row's: both that and reading the row's alone give this answer.
// Where it is refused the table answers as before.
fn check_files<'x>(rt: &impl Abort, good: &'x [u8], file: &'x [u8], expected: Answer, row: &str) {
    let mut table = Table::bare();
    assert!(rt; table.load(good).is_ok());
    let loaded = table.load(file).map_err(numbers);
    let read = Table::read(file).map_err(numbers);
    assert_eq!(rt; loaded.map(|()| table.edges()), expected, "{row}");
    assert_eq!(rt; read.map(|t| t.edges()), expected, "{row}");
    if expected.is_err() {
        check_table(rt, &table, &SEVERAL, row);
    }
}

// The answer and the file of a row.
fn read_row(heap: Global, row: &str) -> Result<(Answer, Vec<u8>), Fail> {
    let (start, words) = row.split_once(':').ok_or(row)?;
    let (number, rest) = start.split_once(' ').ok_or(row)?;
    let (place, _) = rest.split_once(' ').ok_or(row)?;
    let answer = match number.parse::<u8>()? {
        0 => Ok(place.parse::<u32>()?),
        number => Err((number, place.parse::<usize>()?)),
    };
    Ok((answer, build(heap, words)?))
}

// Checks each row of the table, each after the good file.
pub fn check_rows(rt: &impl Abort, heap: Global, good: &[u8], rows: &str) -> Result<(), Fail> {
    for row in rows.lines() {
        let (answer, file) = read_row(heap, row)?;
        check_files(rt, good, file.as_slice(), answer, row);
    }
    Ok(())
}
