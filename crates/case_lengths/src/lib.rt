// How much of its memories a committed case takes.
#![tactic(auto)]

ghost use Rattle.std.specs.Prelude.{min, ◌≡◌, get_or};

use words::word_at;

// A length of the file, held to what a memory takes.
pub fn at_most(n: u32, most: usize) -> usize
    ensures { result ≡ min n most }
{
    (n as usize).min(most)
}

#[derive(Drop)]
pub struct Lengths {
    pub day: usize,
    pub batch: usize,
    pub memory: usize,
}

// The three lengths of a case, each held to its memory's own.
pub fn lengths_within(lengths: &[u32], day: usize, batch: usize, memory: usize) -> Lengths
    ensures { (result.day ≡ min (get_or lengths.now 0 0) day) × (result.batch ≡ min (get_or lengths.now 1 0) batch) × (result.memory ≡ min (get_or lengths.now 2 0) memory) }
{
    Lengths {
        day: at_most(word_at(lengths, 0), day),
        batch: at_most(word_at(lengths, 1), batch),
        memory: at_most(word_at(lengths, 2), memory),
    }
}
