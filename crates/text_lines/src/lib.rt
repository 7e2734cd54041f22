// The lines of a report's text, each written behind what is written.
#![tactic(auto)]

ghost use Rattle.std.specs.Prelude.{◌*◌, ◌≤◌};
ghost use Rattle.model.specs.Limits.{most_lines};
ghost use Rattle.model.specs.Printed.{line_text, lines_text};
ghost use Rattle.text_fields.specs.Writing.{HasRoom, Wrote};
ghost use Rattle.text_lines.specs.Lines.{longest_line, head_of};

use line_words::LINE_WORDS;
use text_fields::Text;
use words::{bits, payload, word_at};

// O, or F where bit 5 of a line's key is set.
fn write_book(text: &mut Text<'_>, key: u32)
    requires { HasRoom 1 text.old }
    ensures { Wrote (head_of key) text.old text.new }
{
    let fail = bits(key, 5, 1) == 1;
    text.write_byte(if fail { b'F' } else { b'O' });
}

// The line that begins at word i of the report.
fn write_line(text: &mut Text<'_>, report: &[u32], i: usize)
    requires room { HasRoom longest_line text.old }
    requires few { i ≤ 10000 }
    ensures { Wrote (line_text report.now i) text.old text.new }
{
    let key = payload(word_at(report, i));
    write_book(text, key);
    text.write_number(u64::from(bits(key, 0, 5)));
    text.write_amounts(report, i + 1, 6);
    text.write_byte(b'\n');
}

// The first n lines of the report.
pub fn write_lines(text: &mut Text<'_>, report: &[u32], n: usize)
    requires room { HasRoom (longest_line * n) text.old }
    requires few { n ≤ most_lines }
    ensures { Wrote (lines_text report.now n) text.old text.new }
{
    for k in 0..n {
        write_line(text, report, 3 + LINE_WORDS * k);
    }
}
