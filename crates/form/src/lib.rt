// Forms as rows of words: what every call answers, and what stands between a tag and its children.
#![tactic(auto)]

pub mod answer;
pub mod head;
