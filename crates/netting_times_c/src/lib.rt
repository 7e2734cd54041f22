// The benchmark's C entry: the library's function, under the same clauses.
#![tactic(auto)]

ghost use Rattle.std.specs.Prelude.{◌≡◌, cond, length};
ghost use Rattle.numbers.specs.Table.{tabulate};
ghost use Rattle.model.specs.Netting.{net as net_of, dvp as dvp_of, position_count};
ghost use Rattle.netting_times.specs.Netted.{netted};

// 1 and both tables netted 1 + times times; or 0 and both as they were.
#[unsafe(no_mangle)]
pub extern "C" fn mars_net_times(
    day: &[u32],
    batch: &[u32],
    nets: &mut [i64],
    dvps: &mut [i64],
    times: u32,
) -> u32
    ensures result { result ≡ cond (netted day.now batch.now (length nets.old) (length dvps.old)) 1 0 }
    ensures nets { nets.new ≡ cond (netted day.now batch.now (length nets.old) (length dvps.old)) (tabulate position_count (net_of batch.now)) nets.old }
    ensures dvps { dvps.new ≡ cond (netted day.now batch.now (length nets.old) (length dvps.old)) (tabulate position_count (dvp_of batch.now)) dvps.old }
{
    netting_times::mars_net_times(day, batch, nets, dvps, times)
}
