// Step 5: the amounts of a class at the ten points.
#![tactic(auto)]

pub mod class_points;
mod series;
