// Runs the call over words on the accounts of cases.w32 and prints each answer; what must come out is the reckoner's.
#![tactic(auto)]

ghost use Rattle.std.specs.Prelude.{◌*◌, ◌≤◌, ◌≡◌, [], ◌++◌, length, take, drop};
ghost use Rattle.io.specs.Counts.{IsPrefixLen};
ghost use Rattle.numbers.specs.Put.{put};
ghost use Rattle.model.specs.Bytes.{words_of};
ghost use Rattle.model.specs.Calls.{memory_after};
ghost use Rattle.program.specs.Files.{call_text};
ghost use Rattle.text.specs.Room.{longest_text};
ghost use Rattle.random_accounts.specs.Fronts.{front, behind};

use batch::RECORD_WORDS;
use byte_check::{LONGEST_BATCH, LONGEST_DAY};
use byte_room::LONGEST_REPORT;
use case_lengths::{at_most, lengths_within};
use std::fs::File;
use std::io;
use std::io::{Read, Write};
use text::lines::LONGEST_TEXT;
use whole_file::read_full;
use words::word_at;

// Room for a day file that is a word too long.
const DAY_ROOM: usize = LONGEST_DAY + 1;

// Room for a batch that is a record too long.
const BATCH_ROOM: usize = LONGEST_BATCH + RECORD_WORDS;

// The file's next bytes as words; the number of bytes that it gave.
fn read_part<R: Read>(file: &mut Option<R>, bytes: &mut [u8], words: &mut [u32]) -> usize
    requires { length bytes.old ≤ 4 * length words.old }
    ensures prefix_len { IsPrefixLen result bytes.new }
    ensures words_after { words.new ≡ put 0 (words_of (take result bytes.new)) words.old }
{
    let got = read_full(file, bytes);
    byte_words::decode(&bytes[..got], words);
    got
}

// The file's next n words, by way of the front of `bytes`; the number of bytes that it gave.
fn read_words<R: Read>(file: &mut Option<R>, n: usize, bytes: &mut [u8], words: &mut [u32]) -> usize
    requires { (4 * n ≤ length bytes.old) × (n ≤ length words.old) }
    ensures upper_bound { result ≤ 4 * n }
    ensures words_after { words.new ≡ put 0 (words_of (take result bytes.new)) words.old }
    ensures bytes_unchanged { drop (4 * n) bytes.new ≡ drop (4 * n) bytes.old }
{
    read_part(file, &mut bytes[..4 * n], words)
}

// Case i: its heading, then the report or the refusal.
fn print_case(
    rt: &impl Print,
    i: u32,
    day: &[u32],
    batch: &[u32],
    memory: &mut [u32],
    out: &mut [u8],
) -> io::Result<()>
    requires { longest_text ≤ length out.old }
    ensures memory_after { memory.new ≡ memory_after day.now batch.now [] memory.old }
    ensures out_after { out.new ≡ put 0 (call_text day.now batch.now memory.old) out.old }
{
    let n = program::print_words(day, batch, memory, out);
    println!(rt; "CASE {i}")?;
    io::writer(rt).write_all(&out[..n])
}

// The same of so many words of each memory, or all where there are fewer; the rest of the report memory stays.
fn print_fronts(
    rt: &impl Print,
    i: u32,
    lengths: &[u32],
    day: &[u32],
    batch: &[u32],
    memory: &mut [u32],
    out: &mut [u8],
) -> io::Result<()>
    requires { longest_text ≤ length out.old }
    ensures memory_after { memory.new ≡ memory_after (front lengths.now 0 day.now) (front lengths.now 1 batch.now) [] (front lengths.now 2 memory.old) ++ behind lengths.now 2 memory.old }
    ensures out_after { out.new ≡ put 0 (call_text (front lengths.now 0 day.now) (front lengths.now 1 batch.now) (front lengths.now 2 memory.old)) out.old }
{
    let held = lengths_within(lengths, day.len(), batch.len(), memory.len());
    print_case(
        rt,
        i,
        &day[..held.day],
        &batch[..held.batch],
        &mut memory[..held.memory],
        out,
    )
}

// The file's next case: three lengths in words, the day file, the batch.
fn run_next<R: Read>(rt: &impl Print, file: &mut Option<R>, i: u32) -> io::Result<()> {
    let mut bytes = [0u8; 4 * DAY_ROOM];
    let mut lengths = [0u32; 3];
    let mut day = [0u32; DAY_ROOM];
    let mut batch = [0u32; BATCH_ROOM];
    let mut memory = [0u32; LONGEST_REPORT];
    let mut out = [0u8; LONGEST_TEXT];
    read_words(file, 3, &mut bytes, &mut lengths);
    read_words(file, at_most(lengths[0], DAY_ROOM), &mut bytes, &mut day);
    read_words(
        file,
        at_most(lengths[1], BATCH_ROOM),
        &mut bytes,
        &mut batch,
    );
    print_fronts(rt, i, &lengths, &day, &batch, &mut memory, &mut out)
}

// The file's first word is the number of cases.
fn main(rt: HostRuntime) -> io::Result<()> {
    let mut file = File::open(&rt, "cases.w32").ok();
    let mut bytes = [0u8; 4];
    let mut count = [0u32; 1];
    read_words(&mut file, 1, &mut bytes, &mut count);
    for i in 0..word_at(&count, 0) {
        run_next(&rt, &mut file, i)?;
    }
    Ok(())
}
