// Readings, and the truth that one point keeps: definitions and theorems, no code.
#![tactic(auto)]
