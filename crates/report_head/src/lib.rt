// The head of a report: its line count and the two maps.
#![tactic(auto)]

ghost use Rattle.std.specs.Prelude.{◌≡◌, ◌∷◌, [], ◌+◌, ◌^◌, ◌≤◌, ◌<◌, length};
ghost use Rattle.std.specs.Int.Count.{ones};
ghost use Rattle.numbers.specs.Put.{put};
ghost use Rattle.model.specs.Limits.{group_count, most_lines};
ghost use Rattle.model.specs.Words.{word};

use words::Kind;

// The maps of the two books: a bit for each group.
#[derive(Clone, Copy)]
pub struct Maps {
    pub ordinary: u32,
    pub fail: u32,
    pub ghost small: { (ordinary < 2 ^ group_count) × (fail < 2 ^ group_count) },
}

impl Maps {
    // The number of ones in both.
    pub fn line_count(self) -> u32
        ensures { (result ≡ ones self.ordinary + ones self.fail) × (result ≤ most_lines) }
    {
        self.ordinary.count_ones() + self.fail.count_ones()
    }
}

// Header and maps.
pub fn write_maps(memory: &mut [u32], count: u32, maps: Maps)
    requires { (3 ≤ length memory.old) × (count < 2 ^ 29) }
    ensures { memory.new ≡ put 0 (word 1 count ∷ word 4 maps.ordinary ∷ word 4 maps.fail ∷ []) memory.old }
{
    let head = [
        words::word(Kind::Header, count),
        words::word(Kind::Count, maps.ordinary),
        words::word(Kind::Count, maps.fail),
    ];
    memory[..3].copy_from_slice(&head);
}
