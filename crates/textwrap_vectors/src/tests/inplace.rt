//! The text that `fill_inplace` leaves where memory is refused.
use super::given::{Found, assert_row};
use super::refusals::{Refusable, refusals_of};
use crate::heap::Heap;
use std::process::Abort;
use textwrap::fill_inplace;

/// A text that is filled in place, the width, and what becomes of it.
#[derive(Drop)]
struct InPlace<'a>(&'a str, usize, &'a str);

impl Refusable for InPlace<'_> {
    /// A refused call has to leave the text as it was. What this test itself allocates does not count.
    fn is_right<R: Abort + AllocGlobal>(&self, _rt: &R, heap: &Heap) -> Found {
        let allowed = heap.left();
        heap.allow(1);
        let mut text = String::from_str(heap, self.0)?;
        heap.allow(allowed);
        let filled = fill_inplace(heap, &mut text, self.1);
        let expected = if filled.is_ok() { self.2 } else { self.0 };
        let is_right = text.as_str() == expected;
        if is_right {
            filled?;
        }
        Ok(is_right)
    }
}

#[rattlefmt::skip]
const REFUSED: &[(&str, usize, &str, usize)] = &[
    // A text that stays as it is needs no memory.
    ("", 0, "", 0),
    ("", 10, "", 0),
    ("foo bar", 10, "foo bar", 0),
    ("foo bar", 7, "foo bar", 0),
    ("foobarbaz", 3, "foobarbaz", 0),
    ("foobarbaz  ", 3, "foobarbaz  ", 0),
    ("   ", 0, "   ", 0),
    ("foo   ", 0, "foo   ", 0),
    ("  foo bar  ", 9, "  foo bar  ", 0),
    ("foo bar baz", usize::MAX, "foo bar baz", 0),
    ("\n\n", 0, "\n\n", 0),
    ("foo\nbar", 0, "foo\nbar", 0),
    ("foo bar\nfoobarbaz\n\nbaz \n", 7, "foo bar\nfoobarbaz\n\nbaz \n", 0),
    ("foo\r\nbar", 4, "foo\r\nbar", 0),
    ("あい うえ", 9, "あい うえ", 0),
    ("\x1b[31mfoo\x1b[0m bar", 7, "\x1b[31mfoo\x1b[0m bar", 0),
    // Any other notes the offsets of the blanks that change, at first some, and more where those
    // are not enough.
    ("foo bar baz", 10, "foo bar\nbaz", 1),
    ("foo bar", 0, "foo\nbar", 1),
    ("   foo", 0, "  \nfoo", 1),
    ("  foo  bar  ", 4, " \nfoo \nbar  ", 1),
    ("foo\nbar baz\n", 4, "foo\nbar\nbaz\n", 1),
    ("foo bar\nbaz foo bar", 7, "foo bar\nbaz foo\nbar", 1),
    ("あい うえ", 8, "あい\nうえ", 1),
    ("1 2 3 4 5 6 7 8 9 a b c d e f g h i j k", 0, "1\n2\n3\n4\n5\n6\n7\n8\n9\na\nb\nc\nd\ne\nf\ng\nh\ni\nj\nk", 2),
    ("1 2 3 4 5 6\n7 8 9\na b c d e f g h\ni j k", 3, "1 2\n3 4\n5 6\n7 8\n9\na b\nc d\ne f\ng h\ni j\nk", 2),
];

/// Whether a call that is refused at least so often was refused so many times. One that is never
/// refused was not.
fn are_enough(refusals: Option<usize>, least: usize) -> bool {
    match refusals {
        Some(refusals) => refusals >= least && (least > 0 || refusals == 0),
        None => false,
    }
}

/// Where memory runs out for the offsets of the blanks that change, at the first of them or later,
/// the text is as it was. Where none changes, nothing is refused.
#[test]
fn a_refused_text_is_as_it_was(rt: HostRuntime) {
    let heap = Heap::new(rt.alloc(), 0);
    for &(text, width, expected, least_refusals) in REFUSED {
        let refusals = refusals_of(&rt, &InPlace(text, width, expected), &heap);
        let is_right = are_enough(refusals, least_refusals);
        assert_row(&rt, (text, refusals), is_right && heap.left() == 0);
    }
}
