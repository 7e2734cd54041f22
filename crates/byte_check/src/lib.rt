// Rows 1 and 2: two files of bytes, each opened or not.
#![tactic(auto)]

ghost use Rattle.std.specs.Prelude.{◌≡◌, ◌<◌, not, ◌||◌, is_some, IfOk};
ghost use Rattle.model.specs.declared.Check.TheVariants.{Bytes};
ghost use Rattle.model.specs.Rows.{plain_row};
ghost use Rattle.model.specs.Bytes.{bad_bytes, bytes_check};
ghost use Rattle.model.specs.Printed.{files_check};
ghost use Rattle.byte_check.specs.Files.{file_bytes, verdict_of};

use batch::{MOST_RECORDS, RECORD_WORDS};
use day_file::{CLASS_WORDS, MOST_CLASSES, MOST_SERIES, SERIES_WORDS};
use model::{BytesFault, Check};

// The words of the longest day file.
pub const LONGEST_DAY: usize = 1 + CLASS_WORDS * MOST_CLASSES + SERIES_WORDS * MOST_SERIES;

// The words of the longest batch.
pub const LONGEST_BATCH: usize = 1 + RECORD_WORDS * MOST_RECORDS;

// Not a multiple of 4 bytes, or longer than the longest form.
fn bad_bytes(bytes: &[u8], longest: usize) -> bool
    requires { longest < 10000 }
    ensures { result ≡ bad_bytes bytes.now longest }
{
    bytes.len() % 4 != 0 || 4 * longest < bytes.len()
}

// The bytes of a file whose row passes; None is a file that was not opened.
fn check_file<'a>(
    file: Option<&'a [u8]>,
    longest: usize,
    fault: BytesFault,
) -> Result<&'a [u8], Check>
    requires { longest < 10000 }
    ensures verdict { verdict_of result ≡ plain_row (Bytes fault) (not (is_some file.entry) || bad_bytes (file_bytes file.entry) longest) }
    ensures bytes { IfOk result (λ bytes. bytes.now ≡ file_bytes file.entry) }
{
    match file {
        Some(bytes) if !bad_bytes(bytes, longest) => Ok(bytes),
        _ => Err(Check::Bytes(fault, 0)),
    }
}

// The bytes of both files. One that was not opened is refused as one of bad bytes; the day file first.
#[tactic(auto, unfolding(model::specs::Printed::files_check, model::specs::Bytes::row1, model::specs::Bytes::row2, model::specs::Rows::tried))]
pub fn check_files<'a>(
    day: Option<&'a [u8]>,
    batch: Option<&'a [u8]>,
) -> Result<(&'a [u8], &'a [u8]), Check>
    ensures verdict { verdict_of result ≡ files_check (is_some day.entry) (file_bytes day.entry) (is_some batch.entry) (file_bytes batch.entry) }
    ensures bytes { IfOk result (λ files. (files.0.now ≡ file_bytes day.entry) × (files.1.now ≡ file_bytes batch.entry)) }
{
    let day = check_file(day, LONGEST_DAY, BytesFault::DayFile)?;
    let batch = check_file(batch, LONGEST_BATCH, BytesFault::BatchFile)?;
    Ok((day, batch))
}

// The same of two files that are there.
#[tactic(auto, unfolding(model::specs::Printed::files_check, model::specs::Bytes::bytes_check))]
pub fn check_bytes(day: &[u8], batch: &[u8]) -> Result<(), Check>
    ensures { result ≡ bytes_check day.now batch.now }
{
    check_files(Some(day), Some(batch))?;
    Ok(())
}
