// The place of a word in the list of its size and the word at a place: ranking and unranking. Both go by the table of the ways to go on:
// the words of a size, in dictionary order, fall into blocks by their first event, and the table says how long each block is.
#![tactic(auto)]

pub use listing_places_count::count_of;

pub mod ranking;
pub mod unranking;
