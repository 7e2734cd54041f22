// Lines counted by their bytes.
ghost use Rattle.std.specs.Prelude.{◌≡◌, ◌==◌, ◌≤◌, length, position};
ghost use Rattle.model.specs.TextReading.{line_bytes, lines_bytes};

// Where the first newline stands.
fn newline(text: &[u8]) -> Option<usize>
    ensures { result ≡ position (λ c. c == 10) text.now }
{
    text.iter().position(|c| *c == b'\n')
}

// The bytes of the first line, its newline among them.
fn line_bytes(text: &[u8]) -> usize
    ensures { result ≡ line_bytes text.now }
{
    match newline(text) {
        Some(i) => i + 1,
        None => text.len(),
    }
}

// The bytes of the first n lines.
pub fn lines_bytes(text: &[u8], n: usize) -> usize
    ensures value { result ≡ lines_bytes text.now n }
    ensures within { result ≤ length text.now }
{
    let mut at: usize = 0;
    for _ in 0..n {
        at += line_bytes(&text[at..]);
    }
    at
}
