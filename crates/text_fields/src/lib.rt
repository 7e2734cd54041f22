// A text written into a lent buffer, and its fields: numbers and amounts.
#![tactic(auto)]

pub mod fields;

// A text as far as it is written: the first `len` bytes of a lent buffer. There is no heap for a String or a Vec.
#[derive(Drop)]
pub struct Text<'a> {
    pub out: &'a mut [u8],
    pub len: usize,
}
