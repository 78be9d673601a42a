// The rewritings as definitions on trees, with their laws; in code the table of commands alone.
#![tactic(auto)]

pub mod command;
