//! Texts of printable ASCII, in which each byte is a character of one column.
ghost use Rattle.std.specs.Prelude.{◌↔◌, ℕ, ◌<◌, ◌≤◌, IsTrue, length, slice_index, true};
ghost use Rattle.textwrap_text.specs.Units.{IsPrintable, IsPrintableByte};

/// How many bytes are looked at together.
const BLOCK: usize = 32;

/// Whether each byte is printable ASCII.
pub fn is_printable(bytes: &[u8]) -> bool
    ensures { IsTrue result ↔ IsPrintable bytes.now }
{
    // Without a stop at the first that is not, the processor can look at many bytes at once.
    let mut all = true;
    for byte in bytes {
        all &= 32 <= *byte && *byte < 127;
    }
    all
}

/// How many bytes of printable ASCII a text begins with.
pub fn printable_len(text: &[u8]) -> usize
    ensures within { result ≤ length text.now }
    ensures printable { (k : ℕ) → k < result → IsPrintableByte (slice_index text.now k) }
{
    let mut end = printable_blocks_len(text);
    while end < text.len() && matches!(text[end], b' '..=b'~') {
        end += 1;
    }
    end
}

/// How many bytes the blocks of printable ASCII have that a text begins with.
fn printable_blocks_len(text: &[u8]) -> usize
    ensures within { result ≤ length text.now }
    ensures printable { (k : ℕ) → k < result → IsPrintableByte (slice_index text.now k) }
{
    let mut end = 0;
    while text.len() - end >= BLOCK && is_printable(&text[end..end + BLOCK]) {
        end += BLOCK;
    }
    end
}
