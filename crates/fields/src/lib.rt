// One field of a sheet or of the settings, read at a place. The format is our own: the Rust has no counterpart.
#![tactic(auto)]

pub mod naming;
pub mod numbers;
pub mod places;

// What is read at a place, and the place after it: what a field says and the place after its space, or a line and the place where the next one
// starts. What is not well formed, or not in its range, is none.
//
// The bytes and the place are two parameters wherever something is read: what is read is `drop at bytes`, and the place goes into the answer. A struct
// of a slice and a place is three words, which are handed over by their address (of the bytes with the classes that was 8 % slower: docs/DESIGN-PASS.md).
#[derive(Clone, Copy, Debug, PartialEq, Eq)]
pub struct Scanned<T> {
    pub value: T,
    pub next: usize,
}
