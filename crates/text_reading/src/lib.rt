// The text output library, read back: what a printed text says. Each function reads at the front of the text that it is given.
#![tactic(auto)]

ghost use Rattle.std.specs.Prelude.{◌≡◌};
ghost use Rattle.model.specs.TextReading.{last_read, lines_read, count_read, report_read, text_says};

use model::TextSays;
use text_last_line::{read_refusal, read_totals};
use text_parts::fields::read_field;
use text_parts::lines::lines_bytes;

// The most lines that a text can have.
const MOST_LINES: u32 = line_words::MOST_LINES as u32;

// The last line.
fn read_last(n: u32, text: &[u8]) -> Option<TextSays>
    ensures { result ≡ last_read n text.now }
{
    read_totals(n, text.strip_prefix(b"TOTAL")?)
}

// Behind the first line: n lines, which are passed over, and the last line.
fn read_lines(n: u32, text: &[u8]) -> Option<TextSays>
    ensures { result ≡ lines_read n text.now }
{
    let at = lines_bytes(text, n as usize);
    read_last(n, &text[at..])
}

// Behind the line count.
fn read_count(n: u64, text: &[u8]) -> Option<TextSays>
    ensures { result ≡ count_read n text.now }
{
    let n = u32::try_from(n).ok()?;
    if MOST_LINES < n {
        return None;
    }
    read_lines(n, text.strip_prefix(b"\n")?)
}

// Behind the head of a report.
fn read_report(text: &[u8]) -> Option<TextSays>
    ensures { result ≡ report_read text.now }
{
    let (n, k) = read_field(text)?;
    read_count(n, &text[k..])
}

// What a printed text says; None where it is neither a report nor a refusal.
pub fn read_text(text: &[u8]) -> Option<TextSays>
    ensures { result ≡ text_says text.now }
{
    if let Some(rest) = text.strip_prefix(b"REFUSED") {
        return read_refusal(rest);
    }
    read_report(text.strip_prefix(b"MARGIN")?)
}
