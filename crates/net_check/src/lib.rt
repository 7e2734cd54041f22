// Row 30: a position whose net, times the multiplier, is above its limit.
#![tactic(auto)]

ghost use Rattle.std.specs.Prelude.{◌≡◌, ◌+◌, ◌*◌, ◌≤◌, ◌<◌, ltb, nat_abs};
ghost use Rattle.numbers.specs.Table.{tabulate};
ghost use Rattle.model.specs.Limits.{contracts_limit, position_limit, quantity_limit};
ghost use Rattle.model.specs.DayFile.{multiplier};
ghost use Rattle.model.specs.Batch.{record_count};
ghost use Rattle.model.specs.Netting.{net as net_of, position_count, row30, netting_check};
ghost use Rattle.net_check.specs.Sizes.{Placed};

use accumulator::Points;
use batch::PLACES;
use day_file::Series;
use model::{Check, NettingFault};
use netting::LimitedBatch;
use rows::check_records;

// A net of a series, times its multiplier, is above the limit of a position.
pub fn net_too_large(series: &Series<'_>, net: i64) -> bool
    requires { nat_abs net ≤ contracts_limit + quantity_limit }
    ensures { result ≡ ltb position_limit (nat_abs net * multiplier series.now.day.now series.now.place) }
{
    Points::position_too_large(net.unsigned_abs() * u64::from(series.multiplier()))
}

// Row 30 at record r: the net of its position.
fn too_large(day: &[u32], batch: &LimitedBatch<'_>, nets: &[i64], r: usize) -> bool
    requires placed { Placed day.now batch.now.words.now }
    requires nets_value { nets.now ≡ tabulate position_count (net_of batch.now.words.now) }
    requires r_bound { r < record_count batch.now.words.now }
    ensures { result ≡ row30 day.now batch.now.words.now r }
{
    let k = batch.record(r).key();
    let series = Series {
        day,
        place: k % PLACES,
    };
    net_too_large(&series, nets[k])
}

// Row 30.
#[tactic(auto, unfolding(model::specs::Netting::netting_check))]
pub fn check_nets(day: &[u32], batch: &LimitedBatch<'_>, nets: &[i64]) -> Result<(), Check>
    requires placed { Placed day.now batch.now.words.now }
    requires nets_value { nets.now ≡ tabulate position_count (net_of batch.now.words.now) }
    ensures { result ≡ netting_check day.now batch.now.words.now }
{
    check_records(
        batch.record_count(),
        |r| too_large(day, batch, nets, r),
        |r| Check::Netting(NettingFault::NetTooLarge, r),
    )
}
