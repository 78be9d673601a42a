// The set of places: replacements for bound identifiers, offered by equalities; and the positions of an equality's parts in a row.
#![tactic(auto)]

pub mod positions;
pub mod replacements;
pub mod sides;
