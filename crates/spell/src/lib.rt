// The spelling of rows in brackets: forms and refusals printed, and whether bytes are the spelling of a row.
#![tactic(auto)]

pub mod answer;
mod decimal;
mod entries;
pub mod fits;
mod print;
mod whole;
