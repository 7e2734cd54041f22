// The fields of a position batch: of its header and of a record.
#![tactic(auto)]

ghost use Rattle.std.specs.Prelude.{◌≡◌, ◌+◌, ◌*◌, ◌^◌, ◌≤◌, ◌<◌, eqb, length};
ghost use Rattle.model.specs.Batch.{batch_header, record_count, record_word, dvp_size, dvp_amount, batch_words, record_words};
ghost use Rattle.model.specs.Batch.{key as key_of, place as place_of, exercised as exercised_of, fail as fail_of, long as long_of, short as short_of};

use words::{bits, payload, word_at};

// The words of a record.
pub const RECORD_WORDS: usize = 6;

// The most records.
pub const MOST_RECORDS: usize = 256;

// The places of series that a key can name.
pub const PLACES: usize = 256;

// The first word, 0 where there is none.
pub fn batch_header(batch: &[u32]) -> u32
    ensures { result ≡ batch_header batch.now }
{
    word_at(batch, 0)
}

// P, the payload.
pub fn record_count(batch: &[u32]) -> usize
    ensures { result ≡ record_count batch.now }
{
    payload(batch_header(batch)) as usize
}

// Word i of record r, where that word is there and the rest of the record need not be.
pub fn record_word(batch: &[u32], r: usize, i: usize) -> u32
    requires { batch_words r + i < length batch.now }
    ensures { result ≡ record_word batch.now r i }
{
    batch[1 + RECORD_WORDS * r + i]
}

// A record, whose words are there.
#[derive(Clone, Copy)]
pub struct Record<'a> {
    pub batch: &'a [u32],
    pub index: usize,
    pub ghost inside: { batch_words (index + 1) ≤ length batch.now },
}

impl<'a> Record<'a> {
    // The record at an index of a batch.
    pub fn new(batch: &'a [u32], index: usize) -> Self
        requires { batch_words (index + 1) ≤ length batch.now }
        ensures { (result.batch.now ≡ batch.now) × (result.index ≡ index) }
    {
        Record { batch, index }
    }

    // Word i.
    pub fn word(&self, i: usize) -> u32
        requires { i < record_words }
        ensures { result ≡ record_word self.now.batch.now self.now.index i }
    {
        record_word(self.batch, self.index, i)
    }

    // The position: place, bit 8 and bit 9, the low ten bits of the key.
    pub fn key(&self) -> usize
        ensures { result ≡ key_of self.now.batch.now self.now.index }
    {
        bits(payload(self.word(0)), 0, 10) as usize
    }

    // Place of the series in the day file, bits 0 to 7 of the key.
    pub fn place(&self) -> usize
        ensures { result ≡ place_of self.now.batch.now self.now.index }
    {
        bits(payload(self.word(0)), 0, 8) as usize
    }

    // Exercised or assigned, bit 8 of the key.
    pub fn is_exercised(&self) -> bool
        ensures { result ≡ eqb (exercised_of self.now.batch.now self.now.index) 1 }
    {
        bits(payload(self.word(0)), 8, 1) == 1
    }

    // A fail, bit 9 of the key.
    pub fn is_fail(&self) -> bool
        ensures { result ≡ eqb (fail_of self.now.batch.now self.now.index) 1 }
    {
        bits(payload(self.word(0)), 9, 1) == 1
    }

    // Long quantity, or exercised.
    pub fn long(&self) -> u32
        ensures { result ≡ long_of self.now.batch.now self.now.index }
    {
        payload(self.word(1))
    }

    // Short quantity, or assigned.
    pub fn short(&self) -> u32
        ensures { result ≡ short_of self.now.batch.now self.now.index }
    {
        payload(self.word(2))
    }

    // Magnitude of the DVP amount.
    pub fn dvp_size(&self) -> u64
        ensures { (result ≡ dvp_size self.now.batch.now self.now.index) × (result < 2 ^ 63) }
    {
        words::magnitude(self.word(3), self.word(4), self.word(5))
    }

    // DVP amount.
    pub fn dvp_amount(&self) -> i64
        ensures { result ≡ dvp_amount self.now.batch.now self.now.index }
    {
        words::amount(self.word(3), self.word(4), self.word(5))
    }
}

// A batch whose length is that of its records.
#[derive(Clone, Copy)]
pub struct WholeBatch<'a> {
    pub words: &'a [u32],
    pub ghost whole: { length words.now ≡ batch_words (record_count words.now) },
}

impl WholeBatch<'_> {
    pub fn record_count(&self) -> usize
        ensures { result ≡ record_count self.now.words.now }
    {
        record_count(self.words)
    }

    pub fn record(&self, r: usize) -> Record<'_>
        requires { r < record_count self.now.words.now }
        ensures { (result.batch.now ≡ self.now.words.now) × (result.index ≡ r) }
    {
        Record::new(self.words, r)
    }
}
