// The share book: its type and the answers of its operations, the definitions of what each operation answers and of the book that it leaves
// (specs), and the laws of these (proofs). No functions.
#![tactic(auto)]

pub mod types;

pub use types::{Book, Change, Choice, Done, Heads, Progress, Taken};
