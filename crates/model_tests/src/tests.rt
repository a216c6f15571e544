// Which files are refused and accepted, and what is read from them.
use crate::bytes::build;
use crate::case::check_rows;
use crate::files::{LARGEST, SEVERAL};
use crate::model::check_model;
use crate::rows::{ACCEPTED, BROKEN_TWICE, REFUSED};
use std::alloc::Global;
use std::process::Abort;
use std::test::Fail;

// Each row is read after a good file.
fn run(rt: &impl Abort, heap: Global, rows: &str) -> Result<(), Fail> {
    let good = build(heap, SEVERAL.words)?;
    check_rows(rt, heap, good.as_slice(), rows)
}

#[test]
fn refused(rt: HostRuntime) -> Result<(), Fail> {
    run(&rt, rt.alloc(), REFUSED)
}

#[test]
fn broken_twice(rt: HostRuntime) -> Result<(), Fail> {
    run(&rt, rt.alloc(), BROKEN_TWICE)
}

#[test]
fn accepted(rt: HostRuntime) -> Result<(), Fail> {
    run(&rt, rt.alloc(), ACCEPTED)
}

#[test]
fn several_edges(rt: HostRuntime) -> Result<(), Fail> {
    check_model(&rt, rt.alloc(), &SEVERAL)
}

#[test]
fn largest(rt: HostRuntime) -> Result<(), Fail> {
    check_model(&rt, rt.alloc(), &LARGEST)
}
