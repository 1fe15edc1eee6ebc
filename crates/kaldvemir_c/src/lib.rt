// The exports of crate kaldvemir for callers in C and Rust, which a static library has to hold (c/kaldvemir.h has the declarations). Each calls
// kaldvemir's function of the same name and module, and promises the same.
#![tactic(auto)]

pub mod all_sizes;
pub mod books;
pub mod given;
pub mod listed;
pub mod runs;
pub mod sheets;
pub mod spelling;
