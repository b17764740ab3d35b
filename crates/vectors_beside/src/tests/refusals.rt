//! Each allocation of a call is refused in turn, until none is: a call that is refused is out of
//! memory, and never gives another text or other lines.
use super::balance::{has_lines_balanced, has_width_balanced};
use super::display::Change::{self, Aligned, Cut, Expanded, Justified, Shortened};
use super::display::{are_carried, are_shortened, changed, is_filled, is_fitted, is_table};
use super::plain::assert_holds;
use std::process::Abort;
use textwrap::WrapError;
use textwrap_display::Alignment::Left;
use textwrap_vectors::heap::Heap;

/// A call, on what it is made here.
#[derive(Clone, Copy)]
enum Call {
    /// A call that makes one line of another, with the line and the columns.
    Line(Change<'static>, &'static str, usize),
    ShortenLines,
    /// `carry_styles`, with the lines.
    CarryStyles(&'static [&'static str]),
    FillJustified,
    Table,
    /// `needs_of`, and then `fitting_widths`.
    FittingWidths,
    BalancedWidth,
    WrapBalanced,
}

/// The rule, the call, and how many allocations it makes at least and at most.
#[rattlefmt::skip]
const CALLS: &[(&str, Call, usize, usize)] = &[
    ("a line that is cut is allocated once", Call::Line(Shortened(".."), "one two", 5), 1, 1),
    ("and twice more where a style is open there", Call::Line(Shortened(".."), "\x1b[1mone two", 5), 3, 3),
    ("but not for a link, nor for a word that is cut", Call::Line(Cut(".."), "\x1b]8;;u\x07abracadabra", 5), 1, 1),
    ("and a line that stays is not", Call::Line(Shortened(".."), "one", 5), 0, 0),
    ("lines with blanks are allocated", Call::Line(Aligned(Left), "a", 3), 1, 99),
    ("in gaps too", Call::Line(Justified, "a b", 5), 1, 99),
    ("and those that stay are not", Call::Line(Justified, "a b", 3), 0, 0),
    ("a text with tabs is allocated", Call::Line(Expanded, "a\tb\tc", 8), 1, 99),
    ("and one without is not", Call::Line(Expanded, "a b", 8), 0, 0),
    ("the list, and the one line that is cut", Call::ShortenLines, 2, 2),
    ("styles and links that are open, known and unknown ones", Call::CarryStyles(&["\x1b[1;31;99ma", "b\x1b]8;;u\x07", "c\x1b[m\x1b]8;;\x07", "d"]), 8, 99),
    ("the list is allocated, and no line that stays", Call::CarryStyles(&["a", "b"]), 1, 1),
    ("a text that is filled", Call::FillJustified, 0, 99),
    ("a table", Call::Table, 0, 99),
    ("what columns need, and their widths", Call::FittingWidths, 2, 2),
    ("a balanced width is found without memory", Call::BalancedWidth, 0, 0),
    ("and only the lines at it are listed", Call::WrapBalanced, 1, 3),
];

/// Whether the call gives what it is to give where so many allocations are allowed.
fn is_right(heap: &Heap, call: Call, allowed: usize) -> Result<bool, WrapError> {
    heap.allow(allowed);
    match call {
        Call::Line(change, line, width) => {
            changed(heap, change, line, width)?;
            Ok(true)
        }
        Call::ShortenLines => Ok(are_shortened(heap, allowed)?),
        Call::CarryStyles(texts) => Ok(are_carried(heap, texts, allowed)?),
        Call::FillJustified => is_filled(heap),
        Call::Table => is_table(heap),
        Call::FittingWidths => is_fitted(heap),
        Call::BalancedWidth => has_width_balanced(heap),
        Call::WrapBalanced => has_lines_balanced(heap),
    }
}

/// How many allocations the call makes, each of which was refused before.
fn allocations(rt: &(impl Abort + AllocGlobal), rule: &str, call: Call) -> usize {
    let heap = Heap::new(rt.alloc(), 0);
    for allowed in 0..200 {
        match is_right(&heap, call, allowed) {
            Ok(is_right) => {
                assert_holds(rt, rule, is_right);
                assert_holds(rt, rule, heap.left() == 0);
                return allowed;
            }
            Err(error) => {
                assert_holds(rt, rule, matches!(error, WrapError::Memory(_)));
                assert_holds(rt, rule, heap.left() == usize::MAX);
            }
        }
    }
    200
}

#[test]
fn refused_allocations_are_told(rt: HostRuntime) {
    for &(rule, call, least, most) in CALLS {
        let needed = allocations(&rt, rule, call);
        let is_right = least <= needed && needed <= most;
        assert!(rt; is_right, "{rule}: {needed} allocations are enough");
    }
}
