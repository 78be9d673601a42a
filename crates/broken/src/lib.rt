// Where a row that is refused breaks.
#![tactic(auto)]

pub mod due;
pub mod kids;
pub mod position;
pub mod seek;
