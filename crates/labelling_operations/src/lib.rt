// The operations that stand on the labelling, for callers: relabel, the characteristic labelling by value, compare, symmetries, kept. Each
// first checks the diagrams it is lent.
#![tactic(auto)]

pub use labelling_answers::{Side, SideRefusal};
pub use labelling_operations_compare::{compare_rooted, compare_unrooted};
pub use labelling_operations_relabel::relabel;
pub use labelling_operations_rootings::{kept, symmetries};
pub use labelling_relabelling::characteristic;
