// The nets and DVPs of a batch whose records passed their own rows, by rows 30 and 31.
#![tactic(auto)]

ghost use Rattle.std.specs.Prelude.{◌≡◌, pos};
ghost use Rattle.numbers.specs.Table.{tabulate};
ghost use Rattle.model.specs.Netting.{net as net_of, dvp as dvp_of, position_count};
ghost use Rattle.model.proofs.Accepted.{RecordRows};
ghost use Rattle.checked_nets.specs.Netted.{sums_check};

use classes::day::CheckedDay;
use dvp_check::check_dvps;
use model::Check;
use net_check::check_nets;
use netting::{LimitedBatch, net_positions};

// Tables of zeros become those of the nets and DVPs; rows 30 and 31.
#[tactic(auto, using(model::proofs::Verdicts::verdicts), unfolding(crate::specs::Netted::sums_check))]
pub fn net_checked(
    day: &CheckedDay<'_>,
    batch: &LimitedBatch<'_>,
    nets: &mut [i64],
    dvps: &mut [i64],
) -> Result<(), Check>
    requires rows { RecordRows day.now.words.now batch.now.words.now }
    requires nets_value { nets.old ≡ tabulate position_count (λ p. pos 0) }
    requires dvps_value { dvps.old ≡ tabulate position_count (λ p. pos 0) }
    ensures value { result ≡ sums_check day.now.words.now batch.now.words.now }
    ensures nets_after { nets.new ≡ tabulate position_count (net_of batch.now.words.now) }
    ensures dvps_after { dvps.new ≡ tabulate position_count (dvp_of batch.now.words.now) }
{
    net_positions(batch, nets, dvps);
    check_nets(day.words, batch, nets)?;
    check_dvps(batch, dvps)
}
