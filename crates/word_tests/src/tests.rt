// What replaying a word answers.
use crate::files::{add_edge, add_guarded, fan, head, late_fan};
use machines::comparison::Comparison;
use machines::machine::Machine;
use models::table::Table;
use pairs::pair::Pair;
use std::process::Abort;
use std::test::Fail;
use words::replay::replay;
use words::word::Letter;

// What replaying answers, with a refusal as its number and its place.
type Answer = Result<bool, (u8, usize)>;

fn answer<M: Machine>(m: &M, grid: u32, word: &[Letter]) -> Answer {
    replay(m, grid, word).map_err(|why| (why.number(), why.place()))
}

const STEP: Letter = Letter { delay: 1, label: 0 };

const LEAD: Letter = Letter { delay: 1, label: 1 };

const LOST: Letter = Letter { delay: 1, label: 2 };

fn table<'a>(rt: &impl Abort, file: &'a [u8]) -> Table<'a> {
    Table::read(file).expect(rt, "no table")
}

// Replays the word at grid 1 on the machine of the file.
fn check_crowd(rt: &impl Abort, file: &[u8], word: &[Letter], expected: Answer) {
    assert_eq!(rt; answer(&table(rt, file), 1, word), expected);
}

#[test]
fn crowds(rt: HostRuntime) -> Result<(), Fail> {
    let heap = rt.alloc();
    let most = fan(heap, 64)?;
    let more = fan(heap, 65)?;
    check_crowd(&rt, &most, &[STEP], Ok(true));
    check_crowd(&rt, &more, &[STEP], Err((24, 0)));
    check_crowd(&rt, &most, &[STEP, LOST], Ok(false));
    // Too many, and none later.
    check_crowd(&rt, &more, &[STEP, LOST], Err((24, 0)));
    let late = late_fan(heap, 64)?;
    let later = late_fan(heap, 65)?;
    check_crowd(&rt, &late, &[LEAD, STEP], Ok(true));
    check_crowd(&rt, &later, &[LEAD, STEP], Err((24, 1)));
    check_crowd(&rt, &later, &[LEAD, STEP, LOST], Err((24, 1)));
    check_crowd(&rt, &later, &[LEAD], Ok(true));
    check_crowd(&rt, &later, &[], Ok(true));
    Ok(())
}

// Many edges to one state make no crowd.
#[test]
fn one_state(rt: HostRuntime) -> Result<(), Fail> {
    let mut file = head(rt.alloc(), 1, 0)?;
    for _ in 0..200 {
        add_edge(&mut file, 0, 0, 0, 0)?;
    }
    check_crowd(&rt, &file, &[STEP, STEP], Ok(true));
    Ok(())
}

// The longest word and delay, and one more.
#[test]
fn ranges(rt: HostRuntime) -> Result<(), Fail> {
    let mut file = head(rt.alloc(), 1, 1)?;
    add_edge(&mut file, 0, 0, 31, 0)?;
    let longest = Letter {
        delay: 1_000_000_000,
        label: 31,
    };
    check_crowd(&rt, &file, &[longest; 256], Ok(true));
    check_crowd(&rt, &file, &[longest; 257], Err((13, 0)));
    let later = Letter {
        delay: 1_000_000_001,
        label: 31,
    };
    check_crowd(&rt, &file, &[longest, later], Err((13, 0)));
    let higher = Letter {
        delay: 0,
        label: 32,
    };
    check_crowd(&rt, &file, &[higher], Err((13, 0)));
    Ok(())
}

// A step of label 0 is one at the delay exactly where the comparison holds.
fn check_edge(rt: &impl Abort, file: &[u8], grid: u32, delay: u32, holds: bool, place: &str) {
    let word = [Letter { delay, label: 0 }];
    assert_eq!(rt; answer(&table(rt, file), grid, &word), Ok(holds), "{place}");
}

// Whether one comparison holds just below, at and just above three ticks.
fn check_comparison(rt: &impl Abort, file: &[u8], grid: u32, holds: [bool; 3]) -> Result<(), Fail> {
    let [below, at, above] = holds;
    let limit = grid.checked_mul(3).ok_or("grid")?;
    check_edge(rt, file, grid, limit.saturating_sub(1), below, "below");
    check_edge(rt, file, grid, limit, at, "at");
    check_edge(rt, file, grid, limit.saturating_add(1), above, "above");
    Ok(())
}

#[test]
fn comparisons(rt: HostRuntime) -> Result<(), Fail> {
    for (comparison, holds) in [
        (Comparison::Below, [true, false, false]),
        (Comparison::AtMost, [true, true, false]),
        (Comparison::Above, [false, false, true]),
        (Comparison::AtLeast, [false, true, true]),
    ] {
        let mut file = head(rt.alloc(), 1, 1)?;
        add_guarded(&mut file, 0, 0, comparison as u8, 3)?;
        for grid in [1, 2, 64] {
            check_comparison(&rt, &file, grid, holds)?;
        }
    }
    Ok(())
}

// Two steps on a pair of two tables, and what each part says of the steps that are its own.
fn check_pair(rt: &impl Abort, left: &[u8], right: &[u8], first: Letter, second: Letter) {
    let one = table(rt, left);
    let other = table(rt, right);
    let word = [first, second];
    let both = answer(&one, 1, &word) == Ok(true) && answer(&other, 1, &word) == Ok(true);
    let pair = Pair::new(one, other);
    assert_eq!(rt; answer(&pair, 1, &word), Ok(both));
}

// Both tables have label 0 alone, so a word is one of the pair exactly where it is one of both.
#[test]
fn pairs(rt: HostRuntime) -> Result<(), Fail> {
    let mut left = head(rt.alloc(), 1, 1)?;
    add_guarded(&mut left, 0, 1, 1, 3)?;
    let mut right = head(rt.alloc(), 1, 1)?;
    add_guarded(&mut right, 0, 0, 3, 2)?;
    for a in 0..6 {
        for b in 0..6 {
            let first = Letter { delay: a, label: 0 };
            let second = Letter { delay: b, label: 0 };
            check_pair(&rt, &left, &right, first, second);
        }
    }
    Ok(())
}

// Replays a step of left's own label 1, and then one of both.
fn check_own(rt: &impl Abort, left: &[u8], right: &[u8], first: u32, second: u32, holds: bool) {
    let pair = Pair::new(table(rt, left), table(rt, right));
    let moved = Letter {
        delay: first,
        label: 1,
    };
    let joint = Letter {
        delay: second,
        label: 0,
    };
    assert_eq!(rt; answer(&pair, 1, &[moved, joint]), Ok(holds));
}

// Label 1 moves left alone, while time passes on the right too.
#[test]
fn own_labels(rt: HostRuntime) -> Result<(), Fail> {
    let mut left = head(rt.alloc(), 1, 1)?;
    add_guarded(&mut left, 0, 0, 1, 9)?;
    add_guarded(&mut left, 1, 1, 1, 3)?;
    let mut right = head(rt.alloc(), 1, 1)?;
    add_guarded(&mut right, 0, 0, 3, 4)?;
    for (first, second, holds) in [
        (3, 1, true),
        (3, 0, false),
        (4, 9, false),
        (0, 4, true),
        (3, 9, true),
        (3, 10, false),
    ] {
        check_own(&rt, &left, &right, first, second, holds);
    }
    Ok(())
}
