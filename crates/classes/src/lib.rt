// A day file that passed its checks, with where the series of each class start; in specs, what the steps are given and sums over a class's series.
#![tactic(auto)]

pub mod day;
pub mod starts;
