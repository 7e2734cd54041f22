// Whether the words of a record are right, rows 22, 27 and 28 at once: a batch of such records is passed over once.
#![tactic(auto)]

ghost use Rattle.std.specs.Prelude.{◌≡◌, ◌≤◌, ◌<◌, length};
ghost use Rattle.numbers.specs.Scan.{first_bad};
ghost use Rattle.model.specs.Batch.{record_words, batch_words};
ghost use Rattle.model.specs.BatchChecks.{record_kind, record_limit};
ghost use Rattle.words.specs.Kinds.{kind_number};
ghost use Rattle.record_words.specs.BadRecord.{bad_word_at, bad_dvp, bad_record};

use batch::Record;
use words::{Kind, PAYLOAD_LIMIT, bits, magnitude, negative, payload};

// The largest payload of a record's key: bits 10 on are spare.
const KEY_LIMIT: u32 = 1023;

// The largest quantity.
const QUANTITY_LIMIT: u32 = 10000000;

// The largest magnitude of a DVP amount.
pub const DVP_AMOUNT_LIMIT: u64 = 5000000000000000;

// The kind of word j of a record: the key, the quantities, the DVP amount's three words.
pub fn record_kind(j: usize) -> Kind
    ensures { kind_number result ≡ record_kind j }
{
    match j {
        0 => Kind::Key,
        1 | 2 => Kind::Count,
        3 => Kind::High,
        _ => Kind::Low,
    }
}

// Its largest payload.
pub fn record_limit(j: usize) -> u32
    ensures { result ≡ record_limit j }
{
    match j {
        0 => KEY_LIMIT,
        1 | 2 => QUANTITY_LIMIT,
        _ => PAYLOAD_LIMIT,
    }
}

// Word j of a record has a wrong kind or a payload above its limit.
#[tactic(auto, unfolding(crate::specs::BadRecord::bad_word_at))]
fn bad_word_at(r: &Record, j: usize) -> bool
    requires { j < record_words }
    ensures { result ≡ bad_word_at r.now.batch.now r.now.index j }
{
    record_kind(j).refuses(r.word(j), record_limit(j))
}

// The DVP amount: within its limit its first word has no bit but the sign's, and the other two have its magnitude.
#[tactic(auto, unfolding(crate::specs::BadRecord::bad_dvp))]
fn bad_dvp(r: &Record) -> bool
    ensures { result ≡ bad_dvp r.now.batch.now r.now.index }
{
    let u = r.word(3);
    let size = magnitude(0, r.word(4), r.word(5));
    (0 < bits(payload(u), 0, 28)) | (DVP_AMOUNT_LIMIT < size) | (negative(u) & (size == 0))
}

// One of its six words, or its DVP amount, without a branch: by `any` or `||` a batch took a fifth longer.
fn bad_record(r: &Record) -> bool
    ensures { result ≡ bad_record r.now.batch.now r.now.index }
{
    bad_word_at(r, 0)
        | bad_word_at(r, 1)
        | bad_word_at(r, 2)
        | bad_word_at(r, 3)
        | bad_word_at(r, 4)
        | bad_word_at(r, 5)
        | bad_dvp(r)
}

pub fn first_bad_record(batch: &[u32], count: usize) -> Option<usize>
    requires { batch_words count ≤ length batch.now }
    ensures { result ≡ first_bad (bad_record batch.now) count }
{
    (0..count).find(|&r| bad_record(&Record::new(batch, r)))
}
