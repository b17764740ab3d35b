//! Texts in columns beside one another, by `wrap_columns`.
use super::given::{assert_found, has_rows};
use super::plain::plain_columns;
use super::texts::{OPTIMAL_FIT, options_of};
use crate::functions::end_nowhere;
use textwrap::wrap_algorithms::LineEnds;
use textwrap::{Options, WrapAlgorithm};

const MAX: usize = usize::MAX;

const WITHOUT_LINES: &[(usize, usize)] = &[(1, 0), (1, MAX), (MAX - 1, 1), (MAX, 0), (MAX, MAX)];

/// A text without lines has no rows, however many columns there are and however wide they are.
#[test]
fn a_text_without_lines_has_no_rows(rt: HostRuntime) {
    let alloc = rt.alloc();
    let nowhere = WrapAlgorithm::Custom(LineEnds::new(alloc, end_nowhere));
    for &(columns, width) in WITHOUT_LINES {
        let options = Options {
            initial_indent: "> ",
            wrap_algorithm: nowhere,
            ..options_of(width, &OPTIMAL_FIT)
        };
        let rows = plain_columns(alloc, "foo", columns, options, ["<", "xx", ">"]);
        assert_found(&rt, (columns, width), has_rows(rows, ""));
    }
}
