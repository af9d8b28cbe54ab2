// The row of words that a pile stands on.
use super::line::LONGEST;
use bank::HeldCell;
use std::alloc::{AllocError, Global};

// A row as it is made for a pile. None of its words overflows, since no row is longer than LONGEST.
pub(crate) fn fresh(heap: Global, length: u16) -> Result<Vec<u16>, AllocError> {
    (0..length.min(LONGEST)).map(|i| i * 7 + 3).collect(heap)
}

// The words of a row that differ from what it was made with.
pub(crate) fn changes(
    heap: Global,
    made: &[u16],
    row: &[u16],
) -> Result<Vec<HeldCell>, AllocError> {
    made.iter()
        .zip(row)
        .enumerate()
        .filter(|(_, (old, new))| old != new)
        .map(|(cell, (_, new))| HeldCell { cell, value: *new })
        .collect(heap)
}
