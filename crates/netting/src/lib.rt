// Step 1: the net and the DVP of each position, by its key, in two lent tables.
#![tactic(auto)]

ghost use Rattle.std.specs.Prelude.{◌≡◌, ◌+◌, ◌<◌, ◌≤◌, pos, ◌+ℤ◌, ◌-ℤ◌, length, get_or, set};
ghost use Rattle.std.specs.Int.{w64};
ghost use Rattle.std.proofs.Common.{SFits};
ghost use Rattle.numbers.specs.Table.{tabulate};
ghost use Rattle.model.specs.Batch.{record_count, long, short};
ghost use Rattle.model.specs.Netting.{net as net_of, dvp as dvp_of, position_count};
ghost use Rattle.netting.specs.Limits.{Limited};

use batch::{PLACES, Record};

// The positions of a table of nets or DVPs.
pub const POSITIONS: usize = 4 * PLACES;

// A batch whose length, quantities and amounts are within their limits.
#[derive(Clone, Copy)]
pub struct LimitedBatch<'a> {
    pub words: &'a [u32],
    pub ghost limited: { Limited words.now },
}

impl LimitedBatch<'_> {
    pub fn record_count(&self) -> usize
        ensures { result ≡ record_count self.now.words.now }
    {
        batch::record_count(self.words)
    }

    pub fn record(&self, r: usize) -> Record<'_>
        requires { r < record_count self.now.words.now }
        ensures { (result.batch.now ≡ self.now.words.now) × (result.index ≡ r) }
    {
        Record::new(self.words, r)
    }
}

// What a record adds to the net of its position: short − long.
pub fn change(r: &Record) -> i64
    ensures { result ≡ pos (short r.now.batch.now r.now.index) -ℤ pos (long r.now.batch.now r.now.index) }
{
    i64::from(r.short()) - i64::from(r.long())
}

// Adds z to entry k of a table.
fn add_at(table: &mut [i64], k: usize, z: i64)
    requires k_in_bounds { k < length table.old }
    requires sfits { SFits w64 (get_or table.old k (pos 0) +ℤ z) }
    ensures { table.new ≡ set table.old k (get_or table.old k (pos 0) +ℤ z) }
{
    table[k] += z;
}

// The records added up by position, in one pass: tables of zeros become the tables of nets and of DVPs.
pub fn net_positions(batch: &LimitedBatch<'_>, nets: &mut [i64], dvps: &mut [i64])
    requires nets_value { nets.old ≡ tabulate position_count (λ p. pos 0) }
    requires dvps_value { dvps.old ≡ tabulate position_count (λ p. pos 0) }
    ensures nets_after { nets.new ≡ tabulate position_count (net_of batch.now.words.now) }
    ensures dvps_after { dvps.new ≡ tabulate position_count (dvp_of batch.now.words.now) }
{
    for r in 0..batch.record_count() {
        let record = batch.record(r);
        let k = record.key();
        add_at(nets, k, change(&record));
        add_at(dvps, k, record.dvp_amount());
    }
}
