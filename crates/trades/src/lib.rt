// The trades of a day: records of a batch's six words, one behind the other and without a header; and row 62.
#![tactic(auto)]

ghost use Rattle.std.specs.Prelude.{◌≡◌, ◌∷◌, ◌<◌};
ghost use Rattle.model.specs.Words.{word as word_of};
ghost use Rattle.model.specs.WorstMoment.{trade_count, trade_at, row62};

use batch::RECORD_WORDS;
use words::{Kind, word};

// The most trades of a day.
const MOST_TRADES: usize = 4096;

// The whole trades of a list.
pub fn trade_count(trades: &[u32]) -> usize
    ensures { result ≡ trade_count trades.now }
{
    trades.len() / RECORD_WORDS
}

// Row 62: the list is not of whole records, or has too many.
#[tactic(auto, unfolding(model::specs::WorstMoment::row62))]
pub fn bad_trades(trades: &[u32]) -> bool
    ensures { result ≡ row62 trades.now }
{
    trades.len() % RECORD_WORDS != 0 || MOST_TRADES < trade_count(trades)
}

// A trade as a batch of its own: a header and its six words.
pub fn batch_of(trades: &[u32], i: usize) -> [u32; 1 + RECORD_WORDS]
    requires { i < trade_count trades.now }
    ensures { result ≡ (word_of 1 1 ∷ trade_at trades.now i) }
{
    let at = RECORD_WORDS * i;
    [
        word(Kind::Header, 1),
        trades[at],
        trades[at + 1],
        trades[at + 2],
        trades[at + 3],
        trades[at + 4],
        trades[at + 5],
    ]
}
