// An account before its deposits cover anything.
ghost use Rattle.std.specs.Prelude.{◌≡◌, true, is_ok};
ghost use Rattle.model.specs.DepositChecks.{deposit_check};
ghost use Rattle.holdings.specs.Seen.{day_of};

use holdings::Holdings;

// What it holds, and deposits that passed their rows.
#[derive(Drop)]
pub struct Account<'a> {
    pub holdings: &'a Holdings<'a>,
    pub deposits: &'a [u32],
    pub ghost checked: { is_ok (deposit_check (day_of holdings.now) deposits.now) ≡ true },
}
