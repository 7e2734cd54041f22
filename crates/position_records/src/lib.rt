// The records of the positions held, written from tables of nets and DVPs: one for each, in their order.
#![tactic(auto)]

ghost use Rattle.std.specs.Prelude.{◌≡◌, ◌*◌, ◌≤◌, ◌<◌, ◌^◌, ◌++◌, nat_abs, length, drop};
ghost use Rattle.numbers.specs.Table.{entry};
ghost use Rattle.model.specs.Limits.{quantity_limit};
ghost use Rattle.model.specs.Batch.{position_record};
ghost use Rattle.model.specs.Netting.{position_count};
ghost use Rattle.model.specs.Rewriting.{in_order, long_of, short_of, held_records, rewritten};
ghost use Rattle.model.proofs.HeldRecords.{held_at, record_at_place};
ghost use Rattle.position_records.specs.Places.{Within, series_positions, records_to};

use batch::{PLACES, RECORD_WORDS};
use positions::amount_at;
use words::{Kind, high_word, low_word, middle_word, word};

// The positions of a series: open and exercised or assigned, in each book.
const SERIES_POSITIONS: usize = 4;

// The key of the position at place i of the order: by series place, then open before exercised, then ordinary before fail.
fn key_at(i: usize) -> usize
    requires { i < position_count }
    ensures { result ≡ in_order i }
{
    i / SERIES_POSITIONS + PLACES * (i / 2 % 2) + 2 * PLACES * (i % 2)
}

// The quantities of a net: one of them is 0.
fn long_of(net: i64) -> u32
    requires { nat_abs net ≤ quantity_limit }
    ensures { (result ≡ long_of net) × (result < 2 ^ 29) }
{
    if net < 0 {
        return net.unsigned_abs() as u32;
    }
    0
}

fn short_of(net: i64) -> u32
    requires { nat_abs net ≤ quantity_limit }
    ensures { (result ≡ short_of net) × (result < 2 ^ 29) }
{
    if net < 0 {
        return 0;
    }
    net.unsigned_abs() as u32
}

// The words of the record of the position with this key, net and DVP.
fn position_record(key: usize, net: i64, dvp: i64) -> [u32; RECORD_WORDS]
    requires key_bound { key < position_count }
    requires within { (nat_abs net ≤ quantity_limit) × (nat_abs dvp < 2 ^ 63) }
    ensures { result ≡ position_record key (long_of net) (short_of net) dvp }
{
    [
        word(Kind::Key, key as u32),
        word(Kind::Count, long_of(net)),
        word(Kind::Count, short_of(net)),
        high_word(dvp),
        middle_word(dvp),
        low_word(dvp),
    ]
}

// The nets and DVPs of the positions of a day file's series, by their keys. The order has four places for each series.
#[derive(Clone, Copy)]
pub struct Positions<'a> {
    pub nets: &'a [i64],
    pub dvps: &'a [i64],
    pub places: usize,
    pub ghost places_bound: { places ≤ position_count },
    pub ghost all_held: { held_records (entry nets.now) (entry dvps.now) ≡ records_to (entry nets.now) (entry dvps.now) places },
}

impl<'a> Positions<'a> {
    // Those of tables in which no position past the day file's series is held.
    pub fn new(nets: &'a [i64], dvps: &'a [i64], series: usize) -> Self
        requires series_bound { series_positions * series ≤ position_count }
        requires all_held { held_records (entry nets.now) (entry dvps.now) ≡ records_to (entry nets.now) (entry dvps.now) (series_positions * series) }
        ensures { (result.nets.now ≡ nets.now) × (result.dvps.now ≡ dvps.now) }
    {
        Positions {
            nets,
            dvps,
            places: SERIES_POSITIONS * series,
        }
    }
}

impl Positions<'_> {
    // The position at place i of the order is held: its net or DVP is not 0.
    fn is_held(&self, i: usize) -> bool
        requires { i < position_count }
        ensures { result ≡ held_at (entry self.now.nets.now) (entry self.now.dvps.now) i }
    {
        let key = key_at(i);
        amount_at(self.nets, key) != 0 || amount_at(self.dvps, key) != 0
    }

    // Its record.
    fn record(&self, i: usize) -> [u32; RECORD_WORDS]
        requires within { Within (entry self.now.nets.now) (entry self.now.dvps.now) }
        requires i_bound { i < position_count }
        ensures { result ≡ record_at_place (entry self.now.nets.now) (entry self.now.dvps.now) i }
    {
        let key = key_at(i);
        position_record(key, amount_at(self.nets, key), amount_at(self.dvps, key))
    }

    // How many are held.
    pub fn count_held(&self) -> usize
        ensures { result ≡ length (held_records (entry self.now.nets.now) (entry self.now.dvps.now)) }
    {
        let mut held = 0;
        for i in 0..self.places {
            if self.is_held(i) {
                held += 1;
            }
        }
        held
    }

    // Their records, one behind the other, behind a header that counts them: over the front of a memory.
    pub fn write(&self, out: &mut [u32])
        requires within { Within (entry self.now.nets.now) (entry self.now.dvps.now) }
        requires room { length (rewritten (entry self.now.nets.now) (entry self.now.dvps.now)) ≤ length out.old }
        ensures { out.new ≡ rewritten (entry self.now.nets.now) (entry self.now.dvps.now) ++ drop (length (rewritten (entry self.now.nets.now) (entry self.now.dvps.now))) out.old }
    {
        let mut count = 0;
        for i in 0..self.places {
            if self.is_held(i) {
                let at = 1 + RECORD_WORDS * count;
                out[at..at + RECORD_WORDS].copy_from_slice(&self.record(i));
                count += 1;
            }
        }
        out[0] = word(Kind::Header, count as u32);
    }
}
