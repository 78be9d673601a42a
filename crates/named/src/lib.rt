// Forms written with names: each occurrence that a declaration binds becomes an index.
#![tactic(auto)]

pub mod named;
mod read;
mod scope;
mod words;
