// The call over words: the report of a day file, a batch and deposits, written into a lent memory; and one account of a checked day file.
#![tactic(auto)]

ghost use Rattle.std.specs.Prelude.{◌≡◌, length};
ghost use Rattle.model.specs.Calls.{answer, memory_after};
ghost use Rattle.report.specs.Checked.{CheckGives};

use batch_check::check_batch;
use checked_account::report_checked;
use classes::day::CheckedDay;
use day_check::check_day;
use model::Check;

// The day file that passed its rows, or its refusal.
pub fn checked_day(day: &[u32]) -> Result<CheckedDay<'_>, Check>
    ensures { CheckGives day.now result }
{
    check_day(day)?;
    Ok(CheckedDay::new(day))
}

// One account of a checked day file: rows 20 to 40.
pub fn report_of_day(
    day: &CheckedDay<'_>,
    batch: &[u32],
    deposits: &[u32],
    memory: &mut [u32],
) -> Result<usize, Check>
    ensures value { result ≡ answer day.now.words.now batch.now deposits.now (length memory.old) }
    ensures memory_after { memory.new ≡ memory_after day.now.words.now batch.now deposits.now memory.old }
{
    check_batch(day.words, batch)?;
    report_checked(day, batch, deposits, memory)
}

// The report of any day file, any batch and any deposits: its length, or the check that refused.
pub fn report(
    day: &[u32],
    batch: &[u32],
    deposits: &[u32],
    memory: &mut [u32],
) -> Result<usize, Check>
    ensures result { result ≡ answer day.now batch.now deposits.now (length memory.old) }
    ensures memory { memory.new ≡ memory_after day.now batch.now deposits.now memory.old }
{
    report_of_day(&checked_day(day)?, batch, deposits, memory)
}
