// The call over words that finds the worst moment of a day (U10): the opening checked and netted, then its trades added one by one.
#![tactic(auto)]

ghost use Rattle.std.specs.Prelude.{◌≡◌, Ok, false, cond};
ghost use Rattle.model.specs.BatchChecks.{batch_check};
ghost use Rattle.model.specs.Netting.{net, dvp};
ghost use Rattle.model.specs.Rewriting.{rewritten};
ghost use Rattle.model.specs.WorstMoment.{row62, moment, worst_answer};
ghost use Rattle.kept_account.specs.Accounts.{nets_of, dvps_of, account_of, Whole};
ghost use Rattle.checked_nets.specs.Netted.{sums_check};
ghost use Rattle.worst_moment.specs.Openings.{opened};

use batch::WholeBatch;
use batch_check::check_batch;
use checked_nets::net_checked;
use classes::day::CheckedDay;
use kept_account::account::Account;
use model::{Check, Moment, NettingFault};
use netting::{LimitedBatch, POSITIONS};
use position_records::Positions;
use report::checked_day;
use trades::{bad_trades, batch_of, trade_count};

// Rows 30 and 31 of an opening that passed its own rows, or its account.
fn opening(day: &CheckedDay<'_>, batch: &[u32]) -> Result<Account, Check>
    requires { batch_check day.now.words.now batch.now ≡ Ok tt }
    ensures { result ≡ opened (sums_check day.now.words.now batch.now) (account_of day.now.words.now (net batch.now) (dvp batch.now)) }
{
    let mut nets = [0i64; POSITIONS];
    let mut dvps = [0i64; POSITIONS];
    net_checked(day, &LimitedBatch { words: batch }, &mut nets, &mut dvps)?;
    let held = Positions::new(&nets, &dvps, day.series_count()).count_held();
    Ok(Account::new(day, nets, dvps, held))
}

// 1 for a step applied, 0 for one left out.
fn one_if(applied: bool) -> u32
    ensures { result ≡ cond applied 1 0 }
{
    u32::from(applied)
}

// The worst moment of an account to which the trades are added.
fn worst_from(day: &CheckedDay<'_>, mut account: Account, trades: &[u32]) -> Moment
    requires whole { Whole day.now.words.now account }
    requires trades { row62 trades.now ≡ false }
    ensures { result ≡ moment day.now.words.now (rewritten (nets_of account) (dvps_of account)) trades.now }
{
    let count = trade_count(trades);
    let mut margin = account.margin();
    let mut step = 0;
    let mut applied = 0;
    for i in 0..count {
        let words = batch_of(trades, i);
        applied += one_if(account.add(day, &WholeBatch { words: &words }));
        let after = account.margin();
        if margin < after {
            margin = after;
            step = i as u32 + 1;
        }
    }
    Moment {
        margin,
        step,
        applied,
        left_out: count as u32 - applied,
    }
}

// The worst moment of a checked day file: rows 20 to 31 and 62.
fn worst_of_day(day: &CheckedDay<'_>, batch: &[u32], trades: &[u32]) -> Result<Moment, Check>
    ensures { result ≡ worst_answer day.now.words.now batch.now trades.now }
{
    check_batch(day.words, batch)?;
    let account = opening(day, batch)?;
    if bad_trades(trades) {
        return Err(Check::Netting(NettingFault::BadTrades, 0));
    }
    Ok(worst_from(day, account, trades))
}

// The worst moment of a day that begins with this batch, or the check that refused.
pub fn worst_moment(day: &[u32], batch: &[u32], trades: &[u32]) -> Result<Moment, Check>
    ensures { result ≡ worst_answer day.now batch.now trades.now }
{
    worst_of_day(&checked_day(day)?, batch, trades)
}
