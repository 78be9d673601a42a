// The shape check: the readers of expressions and predicates, and the checks of forms and of the three lists.
#![tactic(auto)]

pub mod check;
pub mod lists;
pub mod reader;
