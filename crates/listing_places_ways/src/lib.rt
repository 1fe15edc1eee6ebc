// The place of items among the ways to go on from a state, and the items at such a place, event by event: each event's ways are a block.
#![tactic(auto)]

mod blocks;
pub mod ranking;
pub mod unranking;
