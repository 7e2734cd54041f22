// An account kept in tables, to which trades are added one by one (U10): a trade moves one position, and one line's margin is computed again.
#![tactic(auto)]

pub mod account;
mod margins;
mod position;
