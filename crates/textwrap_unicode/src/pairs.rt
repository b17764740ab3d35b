//! Where a printable text is cut into words at Unicode line breaks, told from the bytes before and
//! behind a place, and where the first is a blank, from the last byte before the blanks.
ghost use Rattle.std.specs.Prelude.{◌≡◌, ◌↔◌, ℕ, ◌+◌, ◌-◌, ◌<◌, ◌≤◌, true, false, IsTrue};
ghost use Rattle.std.specs.Prelude.{length, map, slice_index};
ghost use Rattle.textwrap_words.specs.Cuts.{parts_between};
ghost use Rattle.textwrap_text.specs.Units.{IsPrintable, IsPrintableByte};
ghost use Rattle.textwrap_words.specs.Words.{word_of, words_of};
ghost use Rattle.textwrap_unicode.specs.Cuts.{unicode_cuts};
ghost use Rattle.textwrap_unicode.specs.Pairs.{at_breaks, class_past_blanks, is_unusual};
ghost use Rattle.textwrap_unicode.specs.Pairs.{may_follow_blanks, IsCutAtBlanks, IsUsual};

use textwrap_text::ascii::CLASSES;
use textwrap_text::blanks::trimmed_len;
use textwrap_text::class_sets::{is_after_text, is_opening};
use textwrap_text::printable::is_printable;
use unicode::properties::LineBreak;

/// How many bytes are looked at together.
const BLOCK: usize = 8;

/// The kind of each printable byte, as a bit: 1 a blank, 2 what closes (EX, CL, CP, IS and SY), 4 a
/// letter (AL), 8 what stands beside a number (PR and PO), 16 what opens (OP), 32 a digit (NU). All
/// others are of no kind: a quotation mark, a hyphen and a bar begin a word behind blanks alone.
#[rattlefmt::skip]
static KINDS: [u8; 128] = [
    0, 0, 0, 0, 0, 0, 0, 0, 0, 0, 0, 0, 0, 0, 0, 0,
    0, 0, 0, 0, 0, 0, 0, 0, 0, 0, 0, 0, 0, 0, 0, 0,
    1, 2, 0, 4, 8, 8, 4, 0, 16, 2, 4, 8, 2, 0, 2, 2,
    32, 32, 32, 32, 32, 32, 32, 32, 32, 32, 2, 2, 4, 4, 4, 2,
    4, 4, 4, 4, 4, 4, 4, 4, 4, 4, 4, 4, 4, 4, 4, 4,
    4, 4, 4, 4, 4, 4, 4, 4, 4, 4, 4, 16, 8, 2, 4, 4,
    4, 4, 4, 4, 4, 4, 4, 4, 4, 4, 4, 4, 4, 4, 4, 4,
    4, 4, 4, 4, 4, 4, 4, 4, 4, 4, 4, 16, 0, 2, 4, 0,
];

/// The kinds that are unusual behind each printable byte, in a text that is cut at its blanks: behind
/// a blank those that may be kept with what stands before it, behind what opens a blank, behind all
/// others those before which the text is cut.
#[rattlefmt::skip]
static UNUSUAL_AFTER: [u8; 128] = [
    0, 0, 0, 0, 0, 0, 0, 0, 0, 0, 0, 0, 0, 0, 0, 0,
    0, 0, 0, 0, 0, 0, 0, 0, 0, 0, 0, 0, 0, 0, 0, 0,
    18, 60, 0, 0, 8, 8, 0, 0, 1, 16, 0, 8, 24, 0, 24, 28,
    0, 0, 0, 0, 0, 0, 0, 0, 0, 0, 24, 24, 0, 0, 0, 60,
    0, 0, 0, 0, 0, 0, 0, 0, 0, 0, 0, 0, 0, 0, 0, 0,
    0, 0, 0, 0, 0, 0, 0, 0, 0, 0, 0, 1, 8, 16, 0, 0,
    0, 0, 0, 0, 0, 0, 0, 0, 0, 0, 0, 0, 0, 0, 0, 0,
    0, 0, 0, 0, 0, 0, 0, 0, 0, 0, 0, 1, 60, 52, 0, 0,
];

/// Whether the words of a text are those between its blanks: whether it is printable ASCII, and cut
/// by [`unicode_cuts`](crate::unicode_cuts) before each byte that is no blank and follows one, and
/// nowhere else. The call always succeeds.
pub fn is_cut_at_blanks(text: &str) -> bool
    ensures exact { IsTrue result ↔ IsCutAtBlanks text.now }
    ensures words { result ≡ true
        → map word_of (parts_between (unicode_cuts text.now) text.now) ≡ words_of text.now }
{
    let bytes = text.as_bytes();
    is_printable(bytes) && is_usual_up_to(bytes, trimmed_len(bytes))
}

/// Whether a printable text is cut into words at a place inside it. The call always succeeds.
pub fn is_cut_between(text: &[u8], place: usize) -> bool
    requires printable { IsPrintable text.now }
    requires after_start { 0 < place }
    requires inside { place < length text.now }
    ensures { result ≡ at_breaks text.now place }
{
    let before = text[place - 1];
    let after = text[place];
    if after == b' ' {
        return false;
    }
    if before != b' ' {
        return is_unusual(before, after);
    }
    may_follow_blanks(class_past_blanks(text, place), CLASSES[after as usize])
}

/// The class of the last byte before a place that is no blank, XX where there is none.
fn class_past_blanks(text: &[u8], place: usize) -> LineBreak
    requires printable { IsPrintable text.now }
    requires within { place ≤ length text.now }
    ensures { result ≡ class_past_blanks text.now place }
{
    let end = trimmed_len(&text[..place]);
    if end == 0 {
        return LineBreak::Unknown;
    }
    CLASSES[text[end - 1] as usize]
}

/// Whether blanks part a byte of the one class from one of the other that is no blank.
fn may_follow_blanks(past: LineBreak, class: LineBreak) -> bool
    ensures { result ≡ may_follow_blanks past class }
{
    let is_kept = is_opening(past) | (matches!(past, LineBreak::Quotation) & is_opening(class));
    !is_after_text(class) & !is_kept
}

/// Whether a byte is of a kind that is unusual behind another.
#[inline]
#[tactic(auto, using(crate::proofs::PrintableBytes::unusual_bits))]
fn is_unusual(before: u8, after: u8) -> bool
    requires before { IsPrintableByte before }
    requires after { IsPrintableByte after }
    ensures { result ≡ is_unusual before after }
{
    UNUSUAL_AFTER[before as usize] & KINDS[after as usize] != 0
}

/// Whether a printable text is cut at a place as at its blanks, and has no blank there behind a
/// bracket that opens, if both hold at each place before.
#[inline]
#[tactic(auto, using(crate::proofs::PrintableCuts::usual_pair, crate::proofs::PrintableCuts::unusual_blank))]
fn is_usual(text: &[u8], place: usize) -> bool
    requires printable { IsPrintable text.now }
    requires after_start { 0 < place }
    requires inside { place < length text.now }
    requires earlier { (k : ℕ) → 0 < k → k < place → IsUsual text.now k }
    ensures { IsTrue result ↔ IsUsual text.now place }
{
    let before = text[place - 1];
    let after = text[place];
    if !is_unusual(before, after) {
        return true;
    }
    after != b' ' && is_cut_between(text, place) == (before == b' ')
}

/// Whether a printable text is cut as at its blanks at each place before this one, and has no blank
/// behind a bracket that opens there.
fn is_usual_up_to(text: &[u8], end: usize) -> bool
    requires printable { IsPrintable text.now }
    requires within { end ≤ length text.now }
    ensures { IsTrue result ↔ ((k : ℕ) → 0 < k → k < end → IsUsual text.now k) }
{
    let mut place = 1;
    while place < end {
        if end - place >= BLOCK && is_block_usual(text, place) {
            place += BLOCK;
        } else if is_usual(text, place) {
            place += 1;
        } else {
            return false;
        }
    }
    true
}

/// Whether none of the bytes from a place on, as many as are looked at together, is unusual behind
/// the one before it.
fn is_block_usual(text: &[u8], from: usize) -> bool
    requires printable { IsPrintable text.now }
    requires after_start { 0 < from }
    requires within { from + BLOCK ≤ length text.now }
    ensures { IsTrue result ↔ ((k : ℕ) → from ≤ k → k < from + BLOCK
        → is_unusual (slice_index text.now (k - 1)) (slice_index text.now k) ≡ false) }
{
    // Without a stop at the first that is, the processor can look at many bytes at once.
    let mut all = true;
    for offset in 0..BLOCK {
        let place = from + offset;
        all &= !is_unusual(text[place - 1], text[place]);
    }
    all
}
