// Listing in blocks, for callers: the next diagrams of a run, as many as are asked for, one after another, as that many steps would give
// them. The run is tested once for the whole block. Refuses 34, a run that is neither fresh, nor at a diagram, nor finished; a finished run
// answers "no rows"; then 9, an output list that is short. Fewer rows than asked for: the list ended, and the run is finished. With marks,
// the keep mark of each diagram comes too.
#![tactic(auto)]

pub use run_blocks_answers::Listed;
pub use run_blocks_list::list;
pub use run_blocks_marked::list_marked;
