// The head of declarations that are kept, put round a body and joined with the body's own quantifier.
#![tactic(auto)]

pub mod rounds;
