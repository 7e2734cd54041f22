// The byte call: the report of two files given as bytes, words low byte first, into a memory of bytes. It passes no deposits.
#![tactic(auto)]

ghost use Rattle.std.specs.Prelude.{◌≡◌, [], ◌*◌, ◌/◌, ◌≤◌, ◌&&◌, leb, length};
ghost use Rattle.model.specs.Bytes.{byte_answer, bytes_after, words_of, written_bytes, longest_day, longest_batch};
ghost use Rattle.model.specs.Calls.{answer as answer_to, report as report_of};
ghost use Rattle.byte_room.specs.Room.{room_of};
ghost use Rattle.byte_report.specs.Small.{small_day, small_batch};

use byte_check::{LONGEST_BATCH, LONGEST_DAY, check_bytes};
use byte_room::{LONGEST_REPORT, encode_front, room};
use byte_words::decode;
use model::Check;

// The words of small files: for them less memory is cleared.
const SMALL_DAY: usize = 1024;

const SMALL_BATCH: usize = 512;

// The report of two files of words and no deposits, its words in `words` and then its bytes in the memory.
fn report_words(
    day: &[u32],
    batch: &[u32],
    words: &mut [u32],
    memory: &mut [u8],
) -> Result<usize, Check>
    requires { length words.old ≡ room_of (length memory.old) }
    ensures value { result ≡ answer_to day.now batch.now [] (length memory.old / 4) }
    ensures memory_after { memory.new ≡ written_bytes result (report_of day.now batch.now []) memory.old }
{
    let n = report::report(day, batch, &[], words)?;
    encode_front(words, n, memory);
    Ok(n)
}

// The same of two files of bytes, of no more words than D and B.
fn report_within<const D: usize, const B: usize>(
    day: &[u8],
    batch: &[u8],
    memory: &mut [u8],
) -> Result<usize, Check>
    requires most_words { (D ≤ longest_day) × (B ≤ longest_batch) }
    requires within { (length day.now ≤ 4 * D) × (length batch.now ≤ 4 * B) }
    ensures value { result ≡ answer_to (words_of day.now) (words_of batch.now) [] (length memory.old / 4) }
    ensures memory_after { memory.new ≡ written_bytes result (report_of (words_of day.now) (words_of batch.now) []) memory.old }
{
    let mut file = [0u32; D];
    let mut positions = [0u32; B];
    let mut words = [0u32; LONGEST_REPORT];
    decode(day, &mut file);
    decode(batch, &mut positions);
    report_words(
        &file[..day.len() / 4],
        &positions[..batch.len() / 4],
        &mut words[..room(memory.len())],
        memory,
    )
}

// Both files are small.
fn are_small(day: &[u8], batch: &[u8]) -> bool
    ensures { result ≡ (leb (length day.now) (4 * small_day) && leb (length batch.now) (4 * small_batch)) }
{
    day.len() <= 4 * SMALL_DAY && batch.len() <= 4 * SMALL_BATCH
}

// Files of whole words, no longer than their longest form, in memory for their size.
fn report_bytes(day: &[u8], batch: &[u8], memory: &mut [u8]) -> Result<usize, Check>
    requires { (length day.now ≤ 4 * longest_day) × (length batch.now ≤ 4 * longest_batch) }
    ensures value { result ≡ answer_to (words_of day.now) (words_of batch.now) [] (length memory.old / 4) }
    ensures memory_after { memory.new ≡ written_bytes result (report_of (words_of day.now) (words_of batch.now) []) memory.old }
{
    if are_small(day, batch) {
        return report_within::<SMALL_DAY, SMALL_BATCH>(day, batch, memory);
    }
    report_within::<LONGEST_DAY, LONGEST_BATCH>(day, batch, memory)
}

// Rows 1 and 2 before all others.
pub fn byte_report(day: &[u8], batch: &[u8], memory: &mut [u8]) -> Result<usize, Check>
    ensures result { result ≡ byte_answer day.now batch.now (length memory.old) }
    ensures memory { memory.new ≡ bytes_after day.now batch.now memory.old }
{
    check_bytes(day, batch)?;
    report_bytes(day, batch, memory)
}
