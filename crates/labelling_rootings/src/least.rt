// The smaller of two lists (crate labelling_least).
pub use labelling_least::second_is_lesser;
