// Deposited shares against short futures: the nets after cover, written into a lent table.
#![tactic(auto)]

ghost use Rattle.std.specs.Prelude.{◌≡◌, ◌+◌, ◌/◌, ◌<◌, length};
ghost use Rattle.numbers.specs.Table.{tabulate};
ghost use Rattle.model.specs.DayFile.{class_count, series_count, series_class};
ghost use Rattle.model.specs.Deposits.{shares_of};
ghost use Rattle.model.specs.Netting.{position_count};
ghost use Rattle.model.specs.Steps.Cover.{covered};
ghost use Rattle.classes.specs.Range.{start_of};
ghost use Rattle.cover.specs.Accounts.{account_day, account_net};
ghost use Rattle.holdings.specs.Seen.{day_of, net_of};
ghost use Rattle.cover.specs.Covered.{covered_with, covered_to};

use account::Account;
use deposits::{Deposit, deposit_count};
use order::{Order, order_keys, short_size};
use positions::{Book, Holding, position_amount};

pub mod account;
mod order;

// The shares deposited of class c: those of the one deposit that names it.
fn deposited(account: &Account<'_>, c: usize) -> u64
    requires { c < class_count (account_day account.now) }
    ensures { result ≡ shares_of (account_day account.now) account.now.deposits.now c }
{
    let number = account.holdings.day.class(c).number();
    let deposits = account.deposits;
    match (0..deposit_count(deposits)).find(|&i| Deposit::new(deposits, i).number() == number) {
        Some(i) => u64::from(Deposit::new(deposits, i).shares()),
        None => 0,
    }
}

// The contracts that shares cover: the remainder is dropped.
fn contracts_covered(shares: u64, multiplier: u64) -> u64
    requires { 0 < multiplier }
    ensures { result ≡ shares / multiplier }
{
    shares / multiplier
}

// The net of series s of class c after cover by the shares of its class.
fn series_covered(order: &Order<'_>, c: usize, shares: u64, s: usize) -> i64
    requires class_value { (c < class_count (account_day order.now.account.now)) × (series_class (account_day order.now.account.now) s ≡ c) }
    requires s_bound { s < series_count (account_day order.now.account.now) }
    ensures { result ≡ covered_with (account_day order.now.account.now) (account_net order.now.account.now) shares s }
{
    let series = order.account.holdings.day.series(s);
    let net = position_amount(
        order.account.holdings.nets,
        Book::Ordinary,
        Holding::Open,
        s,
    );
    if !series.is_coverable() {
        return net;
    }
    let short = short_size(net);
    if short == 0 {
        return net;
    }
    let contracts = contracts_covered(shares, u64::from(series.multiplier()));
    let rest = contracts.saturating_sub(order.covered_before(c, s));
    short.saturating_sub(rest) as i64
}

// Covers the series of class c; those before them are covered. A place beside the order: a view of both would hold the same bound.
fn cover_class(order: &Order<'_>, c: usize, after: &mut [i64])
    requires c_bound { c < class_count (account_day order.now.account.now) }
    requires after_value { after.old ≡ covered_to (account_day order.now.account.now) order.now.account.now.deposits.now (account_net order.now.account.now) (start_of (account_day order.now.account.now) c) }
    ensures { after.new ≡ covered_to (account_day order.now.account.now) order.now.account.now.deposits.now (account_net order.now.account.now) (start_of (account_day order.now.account.now) (c + 1)) }
{
    let shares = deposited(order.account, c);
    if shares == 0 {
        return;
    }
    let series = order.account.holdings.day.series_of(c);
    for s in series.start..series.end {
        after[s] = series_covered(order, c, shares, s);
    }
}

// The nets after cover. Classes without a deposit are passed over.
pub fn cover(account: &Account<'_>, after: &mut [i64])
    requires nets_len { length account.now.holdings.now.nets.now ≡ position_count }
    requires after_len { length after.old ≡ position_count }
    ensures { after.new ≡ tabulate position_count (covered (account_day account.now) account.now.deposits.now (account_net account.now)) }
{
    after.copy_from_slice(account.holdings.nets);
    let keys = order_keys(account.holdings);
    let order = Order { account, keys };
    for c in 0..account.holdings.day.class_count() {
        cover_class(&order, c, after);
    }
}
