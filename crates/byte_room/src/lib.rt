// A memory of bytes as room for a report's words, and words written into it.
#![tactic(auto)]

ghost use Rattle.std.specs.Prelude.{◌≡◌, ◌*◌, ◌≤◌, length, take};
ghost use Rattle.numbers.specs.Put.{put};
ghost use Rattle.model.specs.Bytes.{bytes_of};
ghost use Rattle.byte_room.specs.Room.{room_of};

use line_words::{FRAME_WORDS, LINE_WORDS, MOST_LINES};

// The words of the longest report.
pub const LONGEST_REPORT: usize = FRAME_WORDS + LINE_WORDS * MOST_LINES;

// The smaller of the memory's whole words and the longest report.
pub fn room(len: usize) -> usize
    ensures { result ≡ room_of len }
{
    (len / 4).min(LONGEST_REPORT)
}

// The bytes of the first n words.
pub fn encode_front(words: &[u32], n: usize, memory: &mut [u8])
    requires { (n ≤ length words.now) × (4 * n ≤ length memory.old) }
    ensures { memory.new ≡ put 0 (bytes_of (take n words.now)) memory.old }
{
    byte_words::encode(&words[..n], memory);
}
