//! Texts whose words are hyphenated.
use super::hyphens::push_patterns;
use super::plain::{assert_found, assert_gives, assert_gives_texts, assert_holds, plain_options};
use std::alloc::{AllocError, Allocator, Global};
use std::borrow::CowStr;
use std::process::Abort;
use textwrap::inner::{refill_by, wrap_columns_by};
use textwrap::{Options, WordSplitter, WrapAlgorithm, WrapError};
use textwrap_display::fill_justified;
use textwrap_hyphens::dictionary::Patterns;
use textwrap_hyphens::laws::more_patterns_raise_levels;
use textwrap_layout::layout::Layout;
use textwrap_lines::inner::{fill_by, wrap_by};
use textwrap_plain::Hyphenated;
use textwrap_plain::laws::{
    hyphenated_lines, hyphenated_lines_are_unique, plain_lines_are_unique, plain_words_at_blanks,
};
use textwrap_vectors::heap::Heap;

/// Patterns of Zei-len-um-bruch, Sil-ben-tren-nung, schma-len and Spal-ten.
const GERMAN: [&str; 8] = ["i1l", "i2l1b", "n1u", "n1n2u", "m1b", "n1t", "a1l", "a2l1t"];

/// A text of such words.
const COLUMN: &str = "Zeilenumbruch und Silbentrennung in schmalen Spalten";

/// The rule, the text, the columns, and what it becomes by first fit.
type Row<'a> = (&'a str, &'a str, usize, &'a str);

#[rattlefmt::skip]
const NARROW: Row<'_> = ("a narrow column", COLUMN, 10, "Zeilenum-\nbruch und\nSilben-\ntrennung\nin schma-\nlen Spal-\nten");

#[rattlefmt::skip]
const COMMENT: Row<'_> = ("a comment", "// Zeilenumbruch\n// und Silbentrennung\n// in schmalen\n// Spalten\n", 13,
    "// Zeilenum-\n// bruch und\n// Silben-\n// trennung\n// in schma-\n// len Spal-\n// ten\n");

/// How many allocations the narrow column takes up to the last that it cannot do without.
const ALLOCATIONS: usize = 19;

/// And the comment.
const REFILL_ALLOCATIONS: usize = 20;

/// A dictionary of the patterns.
pub(super) fn german(alloc: Global) -> Result<Patterns, AllocError> {
    let mut patterns = Vec::new(alloc);
    push_patterns(alloc, &mut patterns, &GERMAN)?;
    Patterns::new(alloc, patterns, Vec::new(alloc), 2, 2)
}

/// The calls that give a text.
#[derive(Clone, Copy)]
enum Call {
    Fill,
    Refill,
}

/// What one of them gives.
fn hyphenated<A: Allocator + Copy>(
    alloc: A,
    call: Call,
    text: &str,
    options: Options<'_>,
    patterns: &Patterns,
) -> Result<String<A>, WrapError> {
    let table = patterns.table();
    let layout = Layout {
        room_for_hyphens: true,
        ..Layout::of(&options)
    };
    let parts = Hyphenated {
        parts: &options,
        patterns: &table,
    };
    match call {
        Call::Fill => fill_by(alloc, text, layout, &parts),
        Call::Refill => refill_by(alloc, text, layout, &parts),
    }
}

#[test]
fn lines_with_hyphens_are_justified(rt: HostRuntime) -> Result<(), AllocError> {
    let patterns = german(rt.alloc())?;
    let table = patterns.table();
    let options = plain_options(10, "", "", WrapAlgorithm::FirstFit);
    let parts = Hyphenated {
        parts: &options,
        patterns: &table,
    };
    let given = fill_justified(rt.alloc(), COLUMN, Layout::of(&options), &parts);
    let wanted = "Zeilenum-\nbruch  und\nSilben-\ntrennung\nin  schma-\nlen  Spal-\nten";
    assert_gives(&rt, "a dictionary works by any parts", given, wanted);
    Ok(())
}

#[test]
fn the_splitter_of_the_options_is_ignored(rt: HostRuntime) -> Result<(), AllocError> {
    let patterns = german(rt.alloc())?.in_parts(true);
    let options = plain_options(10, "", "", WrapAlgorithm::FirstFit);
    let options = options.word_splitter(WordSplitter::NoHyphenation);
    let text = "Zeilen-Silbentrennung";
    let given = hyphenated(rt.alloc(), Call::Fill, text, options, &patterns);
    let wanted = "Zeilen-\nSilben-\ntrennung";
    assert_gives(&rt, "it splits nowhere", given, wanted);
    Ok(())
}

/// Whether a line is a text of its own where a hyphen was added, and else borrowed.
fn borrows_where_it_can(alloc: Global, patterns: &Patterns) -> Result<bool, WrapError> {
    let options = plain_options(10, "", "", WrapAlgorithm::FirstFit);
    let table = patterns.table();
    let parts = Hyphenated {
        parts: &options,
        patterns: &table,
    };
    let lines = wrap_by(alloc, "Silbentrennung", Layout::of(&options), &parts)?;
    Ok(matches!(lines.as_slice(), [CowStr::Owned(_), CowStr::Borrowed(_)]))
}

#[test]
fn only_hyphenated_lines_are_copied(rt: HostRuntime) -> Result<(), AllocError> {
    let patterns = german(rt.alloc())?;
    let found = borrows_where_it_can(rt.alloc(), &patterns);
    assert_found(&rt, "a line without a hyphen added is borrowed", found);
    Ok(())
}

/// The text in two narrow columns.
#[rattlefmt::skip]
const ROWS: &[&str] = &["Zeilenum- |in schma- ", "bruch und |len Spal- ", "Silben-   |ten       ", "trennung  |          "];

#[test]
fn columns_are_hyphenated(rt: HostRuntime) -> Result<(), AllocError> {
    let patterns = german(rt.alloc())?;
    let options = plain_options(21, "", "", WrapAlgorithm::FirstFit);
    let table = patterns.table();
    let parts = Hyphenated {
        parts: &options,
        patterns: &table,
    };
    let layout = Layout::of(&options);
    let given = wrap_columns_by(rt.alloc(), COLUMN, 2, layout, &parts, "", "|", "");
    assert_gives_texts(&rt, "two columns", given, ROWS);
    Ok(())
}

#[test]
fn a_long_text_is_hyphenated(rt: HostRuntime) -> Result<(), AllocError> {
    let patterns = german(rt.alloc())?;
    let text = "Silbentrennung ".repeat(rt.alloc(), 2_500)?;
    let wanted = "Silben-\ntrennung\n".repeat(rt.alloc(), 2_500)?;
    for algorithm in [WrapAlgorithm::FirstFit, WrapAlgorithm::new()] {
        let options = plain_options(10, "", "", algorithm);
        let given = hyphenated(rt.alloc(), Call::Fill, &text, options, &patterns);
        assert_gives(&rt, "2,500 words", given, wanted.trim_end());
    }
    Ok(())
}

#[test]
fn a_long_comment_is_refilled(rt: HostRuntime) -> Result<(), AllocError> {
    let patterns = german(rt.alloc())?;
    let text = "// Silbentrennung\n".repeat(rt.alloc(), 2_500)?;
    let wanted = "// Silben-\n// trennung\n".repeat(rt.alloc(), 2_500)?;
    for algorithm in [WrapAlgorithm::FirstFit, WrapAlgorithm::new()] {
        let options = plain_options(13, "", "", algorithm);
        let given = hyphenated(rt.alloc(), Call::Refill, &text, options, &patterns);
        assert_gives(&rt, "2,500 lines", given, &wanted);
    }
    Ok(())
}

/// Whether a call gives what the row says by first fit, where so many allocations are allowed, none
/// more and none fewer.
fn is_right(
    heap: &Heap,
    call: Call,
    (_, text, width, wanted): Row<'_>,
    patterns: &Patterns,
    allowed: usize,
) -> Result<bool, WrapError> {
    heap.allow(allowed);
    let options = plain_options(width, "", "", WrapAlgorithm::FirstFit);
    let is_right = hyphenated(heap, call, text, options, patterns)?.as_str() == wanted;
    Ok(is_right && heap.left() == 0)
}

/// Asserts that a call takes so many allocations, that it is out of memory where one of them is
/// refused, and that what it gives is right.
fn assert_refused(
    rt: &(impl Abort + AllocGlobal),
    call: Call,
    row: Row<'_>,
    patterns: &Patterns,
    needed: usize,
) {
    let heap = Heap::new(rt.alloc(), 0);
    for allowed in 0..needed {
        let given = is_right(&heap, call, row, patterns, allowed);
        assert_holds(rt, row.0, matches!(given, Err(WrapError::Memory(_))));
    }
    let given = is_right(&heap, call, row, patterns, needed);
    assert_holds(rt, row.0, given.is_ok_and(|is_right| is_right));
}

#[test]
fn each_allocation_may_be_refused(rt: HostRuntime) -> Result<(), AllocError> {
    let patterns = german(rt.alloc())?;
    assert_refused(&rt, Call::Fill, NARROW, &patterns, ALLOCATIONS);
    assert_refused(&rt, Call::Refill, COMMENT, &patterns, REFILL_ALLOCATIONS);
    Ok(())
}

/// A law does nothing when it is called.
#[test]
fn laws_can_be_called(rt: HostRuntime) -> Result<(), AllocError> {
    let patterns = german(rt.alloc())?;
    hyphenated_lines(&Options::new(10), &patterns.table());
    more_patterns_raise_levels();
    hyphenated_lines_are_unique();
    plain_lines_are_unique();
    plain_words_at_blanks();
    Ok(())
}
