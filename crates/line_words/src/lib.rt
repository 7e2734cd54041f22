// Writing the report's words: amounts, lines and totals, each over a lent run of words.
#![tactic(auto)]

ghost use Rattle.std.specs.Prelude.{◌≡◌, ◌∷◌, ◌+◌, ◌*◌, ◌^◌, ◌≤◌, ◌<◌, nat_abs, length};
ghost use Rattle.numbers.specs.Put.{put};
ghost use Rattle.model.specs.Words.{word, amount_words};
ghost use Rattle.model.specs.Report.{words_of_amounts};
ghost use Rattle.words.specs.Kinds.{kind_number};
ghost use Rattle.line_words.specs.Amounts.{Small};

use day_file::GROUPS;
use words::Kind;

// The words of a line.
pub const LINE_WORDS: usize = 19;

// The most lines: one of each group in each book.
pub const MOST_LINES: usize = 2 * GROUPS;

// The words of a report's header, maps and totals.
pub const FRAME_WORDS: usize = 13;

// The three words of an amount.
fn amount_words(z: i64) -> [u32; 3]
    requires { nat_abs z < 2 ^ 63 }
    ensures { result ≡ amount_words z }
{
    [
        words::high_word(z),
        words::middle_word(z),
        words::low_word(z),
    ]
}

// Amounts one behind the other.
fn write_amounts(out: &mut [u32], amounts: &[i64])
    requires { (3 * length amounts.now ≤ length out.old) × Small amounts.now }
    ensures { out.new ≡ put 0 (words_of_amounts amounts.now) out.old }
{
    // by index: of a slice's mutable chunks a proof knows the length alone
    for (i, z) in amounts.iter().enumerate() {
        out[3 * i..3 * i + 3].copy_from_slice(&amount_words(*z));
    }
}

// A word of a kind, and amounts behind it, from word `at` on: a line (its key) or the totals. The report is one lent memory, in which each has its place.
pub fn write_headed_at(memory: &mut [u32], at: usize, kind: Kind, payload: u32, amounts: &[i64])
    requires payload_bound { payload < 2 ^ 29 }
    requires amounts_in_bounds { (at + (1 + 3 * length amounts.now) ≤ length memory.old) × Small amounts.now }
    ensures { memory.new ≡ put at (word (kind_number kind) payload ∷ words_of_amounts amounts.now) memory.old }
{
    memory[at] = words::word(kind, payload);
    write_amounts(&mut memory[at + 1..], amounts);
}
