// Steps 6 to 8 of one book: the line of a group.
#![tactic(auto)]

mod group;
pub mod line;
