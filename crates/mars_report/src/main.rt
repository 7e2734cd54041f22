// The report program: prints the report, or the refusal, of day.w32 and pos.w32 in its folder.
#![tactic(auto)]

use byte_check::{LONGEST_BATCH, LONGEST_DAY};
use std::fs::File;
use std::io;
use std::io::Write;
use text::lines::LONGEST_TEXT;
use whole_file::{read_full, whole_front};

fn main(rt: HostRuntime) -> io::Result<()> {
    // Each buffer holds one word more than the longest form, so that a longer file is seen.
    let mut day = [0u8; 4 * (LONGEST_DAY + 1)];
    let mut batch = [0u8; 4 * (LONGEST_BATCH + 1)];
    let mut out = [0u8; LONGEST_TEXT];
    let mut day_file = File::open(&rt, "day.w32").ok();
    let mut batch_file = File::open(&rt, "pos.w32").ok();
    // Both are read before either is asked for what is left, which takes a byte: both names may stand for one terminal.
    let days = read_full(&mut day_file, &mut day);
    let positions = read_full(&mut batch_file, &mut batch);
    let n = program::print_files(
        whole_front(&mut day_file, &day, days),
        whole_front(&mut batch_file, &batch, positions),
        &mut out,
    );
    rt.stdout().write_all(&out[..n])
}
