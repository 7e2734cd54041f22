// The report of an account's nets with its deposits: rows 50 and 51, the nets after cover, row 40.
#![tactic(auto)]

ghost use Rattle.std.specs.Prelude.{◌≡◌, length};
ghost use Rattle.model.specs.Calls.{answer_of, room_answer, written};
ghost use Rattle.model.specs.DepositChecks.{deposit_check};
ghost use Rattle.model.specs.Netting.{position_count};
ghost use Rattle.model.specs.Report.{report_words, words_needed};
ghost use Rattle.model.specs.Steps.Cover.{covered};
ghost use Rattle.cover.specs.Accounts.{account_day, account_net};
ghost use Rattle.holdings.specs.Seen.{day_of, net_of, dvp_of};

use cover::account::Account;
use deposit_check::check_deposits;
use holdings::{CoveredHoldings, Holdings};
use model::Check;
use netting::POSITIONS;
use report_writer::report_accepted;

// Row 40, or the report, with deposits that passed their rows: the nets after cover in a table of their own.
fn report_reduced(account: &Account<'_>, memory: &mut [u32]) -> Result<usize, Check>
    requires { length account.now.holdings.now.nets.now ≡ position_count }
    ensures value { result ≡ room_answer (words_needed (account_day account.now) (account_net account.now) (dvp_of account.now.holdings.now)) (length memory.old) }
    ensures memory_after { memory.new ≡ written result (report_words (account_day account.now) (account_net account.now) (covered (account_day account.now) account.now.deposits.now (account_net account.now)) (dvp_of account.now.holdings.now)) memory.old }
{
    let before = account.holdings;
    let mut nets = [0i64; POSITIONS];
    cover::cover(account, &mut nets);
    let after = Holdings {
        day: before.day,
        nets: &nets,
        dvps: before.dvps,
    };
    let of = CoveredHoldings {
        nets: before.nets,
        after: &after,
    };
    report_accepted(&of, memory)
}

// Rows 50, 51 and 40, or the report. Without deposits the nets are those of the amounts, and no table is made.
pub fn report_covered(
    before: &Holdings<'_>,
    deposits: &[u32],
    memory: &mut [u32],
) -> Result<usize, Check>
    requires nets_len { length before.now.nets.now ≡ position_count }
    ensures value { result ≡ answer_of (deposit_check (day_of before.now) deposits.now) (room_answer (words_needed (day_of before.now) (net_of before.now) (dvp_of before.now)) (length memory.old)) }
    ensures memory_after { memory.new ≡ written result (report_words (day_of before.now) (net_of before.now) (covered (day_of before.now) deposits.now (net_of before.now)) (dvp_of before.now)) memory.old }
{
    if deposits.is_empty() {
        let of = CoveredHoldings {
            nets: before.nets,
            after: before,
        };
        return report_accepted(&of, memory);
    }
    check_deposits(before.day, deposits)?;
    let account = Account {
        holdings: before,
        deposits,
    };
    report_reduced(&account, memory)
}
