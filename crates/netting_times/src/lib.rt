// For the benchmark: step 1 alone, again and again, as a call.
#![tactic(auto)]

ghost use Rattle.std.specs.Prelude.{◌≡◌, cond, pos, length};
ghost use Rattle.numbers.specs.Table.{tabulate};
ghost use Rattle.model.specs.Netting.{net as net_of, dvp as dvp_of, position_count};
ghost use Rattle.netting_times.specs.Netted.{netted};

use netting::{LimitedBatch, POSITIONS};

// A table of zeros.
fn clear(table: &mut [i64])
    requires { length table.old ≡ position_count }
    ensures { table.new ≡ tabulate position_count (λ p. pos 0) }
{
    table.fill(0);
}

// The batch netted into two tables of any content.
fn net_again(batch: &LimitedBatch<'_>, nets: &mut [i64], dvps: &mut [i64])
    requires nets_len { (length nets.old ≡ position_count) × (length dvps.old ≡ position_count) }
    ensures nets_after { nets.new ≡ tabulate position_count (net_of batch.now.words.now) }
    ensures dvps_after { dvps.new ≡ tabulate position_count (dvp_of batch.now.words.now) }
{
    clear(nets);
    clear(dvps);
    netting::net_positions(batch, nets, dvps);
}

// The same, and `times` times more.
fn net_more(batch: &LimitedBatch<'_>, nets: &mut [i64], dvps: &mut [i64], times: u32)
    requires nets_len { (length nets.old ≡ position_count) × (length dvps.old ≡ position_count) }
    ensures nets_after { nets.new ≡ tabulate position_count (net_of batch.now.words.now) }
    ensures dvps_after { dvps.new ≡ tabulate position_count (dvp_of batch.now.words.now) }
{
    net_again(batch, nets, dvps);
    for _ in 0..times {
        net_again(batch, nets, dvps);
    }
}

// What the call asks: a batch that passes its checks, and tables of all positions.
fn can_net(day: &[u32], batch: &[u32], n: usize, m: usize) -> bool
    ensures { result ≡ netted day.now batch.now n m }
{
    batch_check::check_batch(day, batch).is_ok() & (n == POSITIONS) & (m == POSITIONS)
}

// 1 and both tables netted 1 + times times; or 0 and both as they were: numbers, and slices with their lengths, as C gives and takes them.
pub fn mars_net_times(
    day: &[u32],
    batch: &[u32],
    nets: &mut [i64],
    dvps: &mut [i64],
    times: u32,
) -> u32
    ensures result { result ≡ cond (netted day.now batch.now (length nets.old) (length dvps.old)) 1 0 }
    ensures nets { nets.new ≡ cond (netted day.now batch.now (length nets.old) (length dvps.old)) (tabulate position_count (net_of batch.now)) nets.old }
    ensures dvps { dvps.new ≡ cond (netted day.now batch.now (length nets.old) (length dvps.old)) (tabulate position_count (dvp_of batch.now)) dvps.old }
{
    if can_net(day, batch, nets.len(), dvps.len()) {
        net_more(&LimitedBatch { words: batch }, nets, dvps, times);
        return 1;
    }
    0
}
