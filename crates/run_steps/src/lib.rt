// A run, for callers: the diagrams of a size one after another, each found from the one before. Beginning refuses 31, and at a
// position then 32. A step refuses 34, a run that is neither fresh, nor at a diagram, nor finished; a finished run answers "end"; then 9, an
// output list that is short.
#![tactic(auto)]

pub use run_answers::{Begun, Run, Stepped};
pub use run_beginning::begin;
pub use run_beginning_at::begin_at;
pub use run_step::step;
