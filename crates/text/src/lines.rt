// The whole text: line count, lines and totals, or a refusal; each part is written behind what is written.
ghost use Rattle.std.specs.Prelude.{◌≡◌, ◌≤◌, length};
ghost use Rattle.numbers.specs.Put.{put};
ghost use Rattle.model.specs.Reading.{count_in};
ghost use Rattle.model.specs.Printed.{count_text, totals_text, report_text, refusal_text, printed};
ghost use Rattle.text_fields.specs.Writing.{HasRoom, Wrote};
ghost use Rattle.text.specs.Room.{Room, longest_text};
ghost use Rattle.model.specs.Limits.{most_lines};

use line_words::{LINE_WORDS, MOST_LINES};
use model::Check;
use text_fields::Text;
use text_lines::write_lines;
use words::{payload, word_at};

// The bytes of the longest text: the line count, the lines and the totals.
pub const LONGEST_TEXT: usize = 28 + 155 * MOST_LINES + 72;

// The line count.
fn write_count(text: &mut Text<'_>, n: u64)
    requires { HasRoom 28 text.old }
    ensures { Wrote (count_text n) text.old text.new }
{
    text.write_head(b"MARGIN");
    text.write_number(n);
    text.write_byte(b'\n');
}

// The three totals, from word i of the report on.
fn write_totals(text: &mut Text<'_>, report: &[u32], i: usize)
    requires room { HasRoom 72 text.old }
    requires few { i ≤ 100000 }
    ensures { Wrote (totals_text report.now i) text.old text.new }
{
    text.write_head(b"TOTAL");
    text.write_amounts(report, i, 3);
    text.write_byte(b'\n');
}

// The text of a report, from its words.
fn write_report(text: &mut Text<'_>, report: &[u32])
    requires longest_text_in_bounds { HasRoom longest_text text.old }
    requires report_bound { count_in report.now ≤ most_lines }
    ensures { Wrote (report_text report.now) text.old text.new }
{
    let count = payload(word_at(report, 0));
    let n = count as usize;
    write_count(text, u64::from(count));
    write_lines(text, report, n);
    write_totals(text, report, 4 + LINE_WORDS * n);
}

// The text of a refusal.
fn write_refusal(text: &mut Text<'_>, number: u64, place: u64)
    requires { HasRoom longest_text text.old }
    ensures { Wrote (refusal_text number place) text.old text.new }
{
    text.write_head(b"REFUSED");
    text.write_number(number);
    text.write_number(place);
    text.write_byte(b'\n');
}

// What the program prints for an answer and the report's words, at the front of the buffer; its length.
pub fn write_answer(answer: Result<usize, Check>, report: &[u32], out: &mut [u8]) -> usize
    requires longest_text_in_bounds { longest_text ≤ length out.old }
    requires room { Room answer report.now }
    ensures { (result ≡ length (printed answer report.now)) × (out.new ≡ put 0 (printed answer report.now) out.old) }
{
    let mut text = Text { out, len: 0 };
    match answer {
        Ok(_) => write_report(&mut text, report),
        Err(check) => write_refusal(
            &mut text,
            u64::from(answers::number(check)),
            answers::place(check) as u64,
        ),
    }
    text.len
}
