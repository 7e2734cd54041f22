// The text output library: the text of a report and of a refusal, written into a lent buffer. `text_reading` reads it back.
#![tactic(auto)]

pub mod lines;
