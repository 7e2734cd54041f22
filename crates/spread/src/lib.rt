// Step 2: the spread of a class's open futures, and what remains non-spread.
#![tactic(auto)]

pub mod amount;
pub mod left;
pub mod quantity;
pub mod sides;
mod spot;
