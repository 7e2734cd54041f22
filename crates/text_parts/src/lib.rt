// The parts of a text, each read at its front: a head, numbers and amounts, lines.
#![tactic(auto)]

pub mod fields;
pub mod heads;
pub mod lines;
