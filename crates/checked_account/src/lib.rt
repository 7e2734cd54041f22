// One account whose day file and batch passed their own rows: the nets, row 30, then its deposits and the report.
#![tactic(auto)]

ghost use Rattle.std.specs.Prelude.{◌≡◌, length, Ok};
ghost use Rattle.model.specs.BatchChecks.{batch_check};
ghost use Rattle.model.specs.Calls.{answer, memory_after};

use classes::day::CheckedDay;
use covered_report::report_covered;
use holdings::Holdings;
use model::Check;
use net_check::check_nets;
use netting::{LimitedBatch, POSITIONS, net_positions};

// Rows 30, 50, 51 and 40, and the report.
pub fn report_checked(
    day: &CheckedDay<'_>,
    batch: &[u32],
    deposits: &[u32],
    memory: &mut [u32],
) -> Result<usize, Check>
    requires { batch_check day.now.words.now batch.now ≡ Ok tt }
    ensures value { result ≡ answer day.now.words.now batch.now deposits.now (length memory.old) }
    ensures memory_after { memory.new ≡ memory_after day.now.words.now batch.now deposits.now memory.old }
{
    let mut nets = [0i64; POSITIONS];
    let mut dvps = [0i64; POSITIONS];
    let limited = LimitedBatch { words: batch };
    net_positions(&limited, &mut nets, &mut dvps);
    check_nets(day.words, &limited, &nets)?;
    let before = Holdings {
        day,
        nets: &nets,
        dvps: &dvps,
    };
    report_covered(&before, deposits, memory)
}
