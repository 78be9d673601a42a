// Shift, over a row and its marks read item by item.
#![tactic(auto)]

pub mod items;
pub mod marks;
pub mod shift;
pub mod slots;
