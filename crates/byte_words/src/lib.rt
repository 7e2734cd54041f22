// Words and bytes, low byte first, between lent memories.
#![tactic(auto)]

ghost use Rattle.std.specs.Prelude.{◌≡◌, ◌*◌, ◌/◌, ◌≤◌, length};
ghost use Rattle.numbers.specs.Put.{put};
ghost use Rattle.model.specs.Bytes.{words_of, bytes_of};

// The whole words of some bytes, over the front of `words`.
pub fn decode(bytes: &[u8], words: &mut [u32])
    requires { length bytes.now / 4 ≤ length words.old }
    ensures { words.new ≡ put 0 (words_of bytes.now) words.old }
{
    let (fours, _) = bytes.as_chunks::<4>();
    // by index: after an adapter of `iter_mut` a proof knows nothing of the words
    for (i, four) in fours.iter().enumerate() {
        words[i] = u32::from_le_bytes(*four);
    }
}

// The bytes of words, over the front of `bytes`.
pub fn encode(words: &[u32], bytes: &mut [u8])
    requires { 4 * length words.now ≤ length bytes.old }
    ensures { bytes.new ≡ put 0 (bytes_of words.now) bytes.old }
{
    // by index, as above
    for (i, word) in words.iter().enumerate() {
        bytes[4 * i..4 * i + 4].copy_from_slice(&word.to_le_bytes());
    }
}
