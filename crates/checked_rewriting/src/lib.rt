// A batch whose day file and records passed their own rows, rewritten: the nets, rows 30 to 32, row 40, the records of its positions.
#![tactic(auto)]

ghost use Rattle.std.specs.Prelude.{◌≡◌, length};
ghost use Rattle.numbers.specs.Table.{entry};
ghost use Rattle.model.specs.Calls.{room_answer, outcome, written};
ghost use Rattle.model.specs.Rewriting.{held_records, rewritten, rewriting};
ghost use Rattle.model.specs.RewritingChecks.{rewriting_check};
ghost use Rattle.model.proofs.Accepted.{RecordRows};
ghost use Rattle.position_records.specs.Places.{Within};

use batch::{MOST_RECORDS, RECORD_WORDS};
use checked_nets::net_checked;
use classes::day::CheckedDay;
use model::{Check, NettingFault};
use netting::{LimitedBatch, POSITIONS};
use position_records::Positions;
use rows::check_room;

// Row 40, or the records of the `count` positions held.
fn write_in_room(
    positions: &Positions<'_>,
    count: usize,
    memory: &mut [u32],
) -> Result<usize, Check>
    requires within { Within (entry positions.now.nets.now) (entry positions.now.dvps.now) }
    requires count_value { count ≡ length (held_records (entry positions.now.nets.now) (entry positions.now.dvps.now)) }
    ensures value { result ≡ room_answer (length (rewritten (entry positions.now.nets.now) (entry positions.now.dvps.now))) (length memory.old) }
    ensures memory_after { memory.new ≡ written result (rewritten (entry positions.now.nets.now) (entry positions.now.dvps.now)) memory.old }
{
    let needed = check_room(1 + RECORD_WORDS * count, memory.len())?;
    positions.write(memory);
    Ok(needed)
}

// Rows 30 to 40, or the rewriting, of a batch or of one with a record added.
pub fn rewrite_checked(
    day: &CheckedDay<'_>,
    batch: &LimitedBatch<'_>,
    memory: &mut [u32],
) -> Result<usize, Check>
    requires { RecordRows day.now.words.now batch.now.words.now }
    ensures value { result ≡ outcome (rewriting_check day.now.words.now batch.now.words.now) (length (rewriting batch.now.words.now)) (length memory.old) }
    ensures memory_after { memory.new ≡ written result (rewriting batch.now.words.now) memory.old }
{
    let mut nets = [0i64; POSITIONS];
    let mut dvps = [0i64; POSITIONS];
    net_checked(day, batch, &mut nets, &mut dvps)?;
    let positions = Positions::new(&nets, &dvps, day.series_count());
    let count = positions.count_held();
    if MOST_RECORDS < count {
        return Err(Check::Netting(NettingFault::NoSpace, 0));
    }
    write_in_room(&positions, count, memory)
}
