// The census module for callers in C and Rust: every operation under a plain name, over numbers, lists, the book as 100 numbers and the
// run as 54 (c/kaldvemir.h has the declarations). Each function calls its operation, returns the number of the answer, 0 or its refusal's, and
// writes the values that the answer has through the references that stand last; of what stands behind these it reads nothing. Each contract
// passes on the promise of the operation.
#![tactic(auto)]

pub mod all_sizes;
pub mod books;
pub mod given;
pub mod listed;
pub mod runs;
pub mod sheets;
pub mod spelling;
