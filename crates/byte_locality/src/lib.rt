// Demand 3 of the byte call: two reports with one day file, of two batches that are edits or reorderings, into `memory` and `other`; and they are demand 2's.
#![tactic(auto)]

ghost use Rattle.std.specs.Prelude.{◌≡◌, length};
ghost use Rattle.model.specs.Bytes.{byte_answer, bytes_after};
ghost use Rattle.byte_locality.specs.Edits.{LocalByteEdit, SameByteOrder};

use byte_report::byte_report;
use locality::Answers;

// An edit in one group of one book changes its line alone.
pub fn byte_edits(day: &[u8], batch: &[u8], edited: &[u8], memory: &mut [u8], other: &mut [u8])
    ensures local_byte_edit { LocalByteEdit day.now batch.now edited.now memory.old other.old memory.new other.new }
    ensures memory_after { (memory.new ≡ bytes_after day.now batch.now memory.old) × (other.new ≡ bytes_after day.now edited.now other.old) }
{
    let _ = byte_report(day, batch, memory);
    let _ = byte_report(day, edited, other);
}

// The order of the records changes nothing. Two calls again: each function is the claim that its contract makes.
pub fn byte_orders(
    day: &[u8],
    batch: &[u8],
    reordered: &[u8],
    memory: &mut [u8],
    other: &mut [u8],
) -> Answers
    ensures same_byte_order { SameByteOrder day.now batch.now reordered.now memory.old other.old memory.new other.new result.batch result.reordered }
    ensures memory_after { (memory.new ≡ bytes_after day.now batch.now memory.old) × (other.new ≡ bytes_after day.now reordered.now other.old) }
    ensures batch_value { (result.batch ≡ byte_answer day.now batch.now (length memory.old)) × (result.reordered ≡ byte_answer day.now reordered.now (length other.old)) }
{
    Answers {
        batch: byte_report(day, batch, memory),
        reordered: byte_report(day, reordered, other),
    }
}
