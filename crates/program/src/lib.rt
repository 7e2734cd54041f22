// What the report program prints for its two files.
#![tactic(auto)]

ghost use Rattle.std.specs.Prelude.{◌≡◌, [], ◌*◌, ◌≤◌, length, replicate, is_some};
ghost use Rattle.io.specs.Counts.{IsPrefixLen};
ghost use Rattle.numbers.specs.Put.{put};
ghost use Rattle.model.specs.Bytes.{words_of, written_bytes};
ghost use Rattle.model.specs.Calls.{memory_after, report as report_of};
ghost use Rattle.byte_check.specs.Files.{file_bytes};
ghost use Rattle.text.specs.Room.{longest_text};
ghost use Rattle.program.specs.Files.{files_answer, files_text, call_text};
ghost use Rattle.model.specs.Report.{longest_report};

use byte_room::LONGEST_REPORT;
use model::Check;

// The answer for two files, None for one that was not opened, and the bytes of the report over a memory of zeros.
fn answer_files(day: Option<&[u8]>, batch: Option<&[u8]>, memory: &mut [u8]) -> Result<usize, Check>
    requires { memory.old ≡ replicate (4 * longest_report) 0 }
    ensures value { result ≡ files_answer (is_some day.entry) (file_bytes day.entry) (is_some batch.entry) (file_bytes batch.entry) }
    ensures memory_after { memory.new ≡ written_bytes result (report_of (words_of (file_bytes day.entry)) (words_of (file_bytes batch.entry)) []) (replicate (4 * longest_report) 0) }
{
    let (day, batch) = byte_check::check_files(day, batch)?;
    byte_report::byte_report(day, batch, memory)
}

// The text at the front of the buffer; its length.
pub fn print_files(day: Option<&[u8]>, batch: Option<&[u8]>, out: &mut [u8]) -> usize
    requires { longest_text ≤ length out.old }
    ensures value { (result ≡ length (files_text day.entry batch.entry)) × (out.new ≡ put 0 (files_text day.entry batch.entry) out.old) }
    ensures prefix_len { IsPrefixLen result out.new }
{
    let mut memory = [0u8; 4 * LONGEST_REPORT];
    let mut words = [0u32; LONGEST_REPORT];
    let answer = answer_files(day, batch, &mut memory);
    byte_words::decode(&memory, &mut words);
    text::lines::write_answer(answer, &words, out)
}

// The same of two files of words and a memory of any length.
pub fn print_words(day: &[u32], batch: &[u32], memory: &mut [u32], out: &mut [u8]) -> usize
    requires { longest_text ≤ length out.old }
    ensures value { (result ≡ length (call_text day.now batch.now memory.old)) × (out.new ≡ put 0 (call_text day.now batch.now memory.old) out.old) }
    ensures prefix_len { IsPrefixLen result out.new }
    ensures memory_after { memory.new ≡ memory_after day.now batch.now [] memory.old }
{
    let answer = report::report(day, batch, &[], memory);
    text::lines::write_answer(answer, memory, out)
}
