// Membership: an element in a comprehension becomes an existence.
#![tactic(auto)]

mod filling;
mod member;
mod noted;
pub mod rewrite_in_compset;
mod shares;
