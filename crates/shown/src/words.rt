// The words of a line, parted by a space, and a decimal number among them.
ghost use Rattle.std.specs.Prelude.{◌≡◌, ◌==◌, ◌≤◌};
ghost use Rattle.std.specs.List.{position, before_first, after_first};

// Where the first space stands.
fn space_in(line: &[u8]) -> Option<usize>
    ensures { result ≡ position (λ b. b == 32) line.now }
{
    line.iter().position(|b| *b == b' ')
}

// The first word, and what stands behind its space; the whole line, and nothing, where there is none.
pub fn split_word(line: &[u8]) -> (&[u8], &[u8])
    ensures word { result.0.now ≡ before_first (λ b. b == 32) line.now }
    ensures rest { result.1.now ≡ after_first (λ b. b == 32) line.now }
{
    match space_in(line) {
        Some(end) => (&line[..end], &line[end + 1..]),
        None => (line, &[]),
    }
}

fn digit(b: u8) -> u32
    ensures { result ≤ 9 }
{
    match b {
        b'0'..=b'9' => u32::from(b - b'0'),
        _ => 0,
    }
}

// A decimal number; what passes 32 bits counts as the most there is.
pub fn decimal(word: &[u8]) -> u32 {
    word.iter().fold(
        0,
        |n: u32, b| n.saturating_mul(10).saturating_add(digit(*b)),
    )
}

// The same, or the most that it may be.
pub fn decimal_up_to(word: &[u8], most: usize) -> usize
    ensures { result ≤ most }
{
    (decimal(word) as usize).min(most)
}
