// A book of an accepted account (step 9): its map, its lines written one behind the other, its total.
#![tactic(auto)]

pub mod book;
pub mod maps;
