// Demand 3 of the call over words: two reports with one day file, of two batches and deposits that are edits or reorderings, into `memory`
// and `other`; and they are demand 2's.
#![tactic(auto)]

ghost use Rattle.std.specs.Prelude.{◌≡◌, length};
ghost use Rattle.model.specs.Calls.{answer, memory_after};
ghost use Rattle.locality.specs.Edits.{LocalEdit, SameOrder};

use model::Check;

// An edit in one group of one book, of records and, in the ordinary book, of deposits, changes its line alone.
pub fn report_edits(
    day: &[u32],
    batch: &[u32],
    edited: &[u32],
    deposits: &[u32],
    edited_deposits: &[u32],
    memory: &mut [u32],
    other: &mut [u32],
)
    ensures local_edit { LocalEdit day.now batch.now edited.now deposits.now edited_deposits.now memory.old other.old memory.new other.new }
    ensures memory_after { (memory.new ≡ memory_after day.now batch.now deposits.now memory.old) × (other.new ≡ memory_after day.now edited.now edited_deposits.now other.old) }
{
    let _ = report::report(day, batch, deposits, memory);
    let _ = report::report(day, edited, edited_deposits, other);
}

// The answers of two calls.
#[derive(Drop)]
pub struct Answers {
    pub batch: Result<usize, Check>,
    pub reordered: Result<usize, Check>,
}

// The order of the records and of the deposits changes nothing. Two calls again: each function is the claim that its contract makes.
pub fn report_orders(
    day: &[u32],
    batch: &[u32],
    reordered: &[u32],
    deposits: &[u32],
    reordered_deposits: &[u32],
    memory: &mut [u32],
    other: &mut [u32],
) -> Answers
    ensures same_order { SameOrder day.now batch.now reordered.now deposits.now reordered_deposits.now memory.old other.old memory.new other.new result.batch result.reordered }
    ensures memory_after { (memory.new ≡ memory_after day.now batch.now deposits.now memory.old) × (other.new ≡ memory_after day.now reordered.now reordered_deposits.now other.old) }
    ensures batch_value { (result.batch ≡ answer day.now batch.now deposits.now (length memory.old)) × (result.reordered ≡ answer day.now reordered.now reordered_deposits.now (length other.old)) }
{
    Answers {
        batch: report::report(day, batch, deposits, memory),
        reordered: report::report(day, reordered, reordered_deposits, other),
    }
}
