// Model files made by code.
use std::alloc::{AllocError, Global};

// A head with so many locations and clocks, which are few.
pub fn head(heap: Global, locations: u8, clocks: u8) -> Result<Vec<u8>, AllocError> {
    Vec::from_slice(heap, &[8, 0, 1, 0, locations, 0, clocks, 0])
}

// One edge more, with no atom.
pub fn add_edge(
    file: &mut Vec<u8>,
    from: u8,
    to: u8,
    label: u8,
    resets: u8,
) -> Result<(), AllocError> {
    file.extend_from_slice(&[12, 0, 2, 0, from, 0, to, 0, label, resets, 0, 0])
}

// One edge more, from location 0 to itself, with an atom on clock 0.
pub fn add_guarded(
    file: &mut Vec<u8>,
    label: u8,
    resets: u8,
    comparison: u8,
    constant: u8,
) -> Result<(), AllocError> {
    file.extend_from_slice(&[20, 0, 2, 0, 0, 0, 0, 0, label, resets, 1, 0])?;
    file.extend_from_slice(&[0, comparison, 0, 0, constant, 0, 0, 0])
}

// Edges with label 0 from a location to each of the locations below `targets`.
fn add_fan(file: &mut Vec<u8>, from: u8, targets: u8) -> Result<(), AllocError> {
    for to in 0..targets {
        add_edge(file, from, to, 0, 0)?;
    }
    Ok(())
}

// A machine that reaches so many locations in its first step.
pub fn fan(heap: Global, targets: u8) -> Result<Vec<u8>, AllocError> {
    let mut file = head(heap, targets, 0)?;
    add_fan(&mut file, 0, targets)?;
    Ok(file)
}

// A machine that reaches so many locations in its second step, once label 1 has led to location 1.
pub fn late_fan(heap: Global, targets: u8) -> Result<Vec<u8>, AllocError> {
    let mut file = head(heap, targets, 0)?;
    add_edge(&mut file, 0, 1, 1, 0)?;
    add_fan(&mut file, 1, targets)?;
    Ok(file)
}
