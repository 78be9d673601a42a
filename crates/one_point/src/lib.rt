// The one-point rule: a quantified predicate is reduced by the first equality that its body offers.
#![tactic(auto)]

mod children;
mod equality;
mod heads;
mod joined;
mod kept;
mod marks;
mod noted;
pub mod one_point_inference;
mod parts;
mod reduce;
mod rest;
mod scan;
mod scanned;
mod writes;
