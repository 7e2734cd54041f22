// Whether a file was opened and read whole.
#![tactic(auto)]

ghost use Rattle.std.specs.Prelude.{true, false, ◌≡◌, [], ◌<◌, length, take, IsNone, IsSome, IfSome, MatchOption};
ghost use Rattle.std.specs.Io.KnownBytes.{Keeps, Consumes, IsAtEnd};
ghost use Rattle.io.specs.Counts.{IsPrefixLen};
ghost use Rattle.whole_file.specs.Left.{left};

use std::io::Read;

// Some of the file's next bytes and how many, 0 only at its end or where there is no room; None where it was not opened or fails.
fn read_some<R: Read>(file: &mut Option<R>, buffer: &mut [u8]) -> Option<usize>
    ensures prefix_len { IfSome result (λ n. IsPrefixLen n buffer.new) }
    ensures opened { (IsNone file.old → IsNone file.new) × (IsSome file.old → IsSome file.new) }
    ensures bytes { MatchOption result (Keeps (left R.remaining file.old) (left R.remaining file.new)) (λ n. Consumes (left R.remaining file.old) (left R.remaining file.new) (take n buffer.new)) }
    ensures end { IfSome result (λ n. n ≡ 0 → 0 < length buffer.new → IsAtEnd (left R.remaining file.new)) }
{
    file.as_mut()?.read(buffer).ok()
}

// The file's next bytes, until the buffer is full, the file ends or a read fails; how many there are.
pub fn read_full<R: Read>(file: &mut Option<R>, buffer: &mut [u8]) -> usize
    ensures prefix_len { IsPrefixLen result buffer.new }
    ensures opened { (IsNone file.old → IsNone file.new) × (IsSome file.old → IsSome file.new) }
    ensures bytes { Consumes (left R.remaining file.old) (left R.remaining file.new) (take result buffer.new) }
{
    // A read fills any part of what is left, so no range counts the reads.
    let mut done = 0;
    while done < buffer.len() {
        match read_some(file, &mut buffer[done..]) {
            None | Some(0) => break,
            Some(n) => done += n,
        }
    }
    done
}

// A file was opened, and nothing is left behind what was read of it, or the buffer is full. Else it counts as not opened.
pub fn was_read<R: Read>(file: &mut Option<R>, full: bool) -> bool
    ensures opened { (IsNone file.old → result ≡ false) × (IsSome file.old → full ≡ true → result ≡ true) }
    ensures bytes { result ≡ true → Consumes (left R.remaining file.old) (left R.remaining file.new) [] }
    ensures end { full ≡ false → result ≡ true → IsAtEnd (left R.remaining file.new) }
{
    let mut more = [0u8; 1];
    file.is_some() && (full || read_some(file, &mut more) == Some(0))
}

// What was read of a file over the front of a buffer, n bytes, where it was read whole or fills the buffer; else None, also where it was not opened.
pub fn whole_front<'a, R: Read>(
    file: &mut Option<R>,
    buffer: &'a [u8],
    n: usize,
) -> Option<&'a [u8]>
    requires { IsPrefixLen n buffer.now }
    ensures opened { (IsNone file.old → IsNone result) × (IsSome file.old → n ≡ length buffer.now → IsSome result) }
    ensures front { IfSome result (λ bytes. bytes.now ≡ take n buffer.now) }
    ensures bytes { IfSome result (λ _. Consumes (left R.remaining file.old) (left R.remaining file.new) []) }
    ensures end { IfSome result (λ _. n < length buffer.now → IsAtEnd (left R.remaining file.new)) }
{
    let full = n == buffer.len();
    was_read(file, full).then_some(&buffer[..n])
}

// The bytes of a file, over the front of the buffer, which those of a longer file fill; None where it was not opened or not read whole.
pub fn read_whole<'a, R: Read>(file: &mut Option<R>, buffer: &'a mut [u8]) -> Option<&'a [u8]>
    ensures opened { IsNone file.old → IsNone result }
    ensures bytes { IfSome result (λ bytes. Consumes (left R.remaining file.old) (left R.remaining file.new) bytes.now) }
    ensures end { IfSome result (λ bytes. length bytes.now < length buffer.old → IsAtEnd (left R.remaining file.new)) }
{
    let n = read_full(file, buffer);
    whole_front(file, buffer, n)
}
