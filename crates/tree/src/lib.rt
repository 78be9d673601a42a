// Forms as trees, and the table of tags.
#![tactic(auto)]

pub mod tag;
