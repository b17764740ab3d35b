//! Options and their builders.
use super::given::assert_row;
use super::texts::{Layout, OPTIMAL_FIT, have_layout, options_of};
use std::test::Fail;
use textwrap::{LineEnding, Options, WordSeparator, WordSplitter, WrapAlgorithm};

/// Options that differ from the defaults of 80 columns in each field.
fn unlike_defaults<'a>() -> Options<'a> {
    Options::new(80)
        .width(7)
        .line_ending(LineEnding::CRLF)
        .initial_indent("* ")
        .subsequent_indent("  ")
        .break_words(false)
        .wrap_algorithm(WrapAlgorithm::FirstFit)
        .word_separator(WordSeparator::new())
        .word_splitter(WordSplitter::NoHyphenation)
        .preserve_trailing_space(true)
        .even_paragraphs(true)
}

/// The same, field by field.
const UNLIKE_DEFAULTS: Layout<'_> = Layout {
    line_ending: LineEnding::CRLF,
    initial_indent: "* ",
    subsequent_indent: "  ",
    break_words: false,
    split_words: false,
    penalties: None,
    preserve_trailing_space: true,
    even_paragraphs: true,
};

/// Whether the options agree in each field.
fn are_same(options: &Options<'_>, expected: &Options<'_>) -> bool {
    let indents = [expected.initial_indent, expected.subsequent_indent];
    have_layout(options, expected.width, indents, expected.line_ending)
        && options.break_words == expected.break_words
        && options.preserve_trailing_space == expected.preserve_trailing_space
        && options.even_paragraphs == expected.even_paragraphs
        && have_same_parts(options, expected)
}

/// Whether the options agree in the algorithm, the separator and the splitter.
fn have_same_parts(options: &Options<'_>, expected: &Options<'_>) -> bool {
    options.wrap_algorithm == expected.wrap_algorithm
        && options.word_separator == expected.word_separator
        && options.word_splitter == expected.word_splitter
}

/// Options of a width have the defaults in all other fields.
#[test]
fn a_width_has_the_defaults(rt: HostRuntime) {
    let expected = options_of(80, &OPTIMAL_FIT);
    assert_row(&rt, "new", are_same(&Options::new(80), &expected));
    assert_row(&rt, "from", are_same(&Options::from(80), &expected));
    let is_optimal = expected.wrap_algorithm == WrapAlgorithm::new_optimal_fit();
    assert_row(&rt, "algorithm", is_optimal);
    let is_at_blanks = expected.word_separator == WordSeparator::new();
    assert_row(&rt, "separator", is_at_blanks);
}

/// A builder sets its field, and no other.
#[test]
fn each_field_has_its_builder(rt: HostRuntime) {
    let expected = options_of(7, &UNLIKE_DEFAULTS);
    assert_row(&rt, "builders", are_same(&unlike_defaults(), &expected));
}

/// Options made from a reference, and a clone, agree in all fields.
#[test]
fn a_copy_has_all_fields(rt: HostRuntime) -> Result<(), Fail> {
    let options = unlike_defaults();
    assert_row(&rt, "from", are_same(&Options::from(&options), &options));
    let clone = options.clone()?;
    assert_row(&rt, "clone", are_same(&clone, &options));
    Ok(())
}

/// The text of each line ending.
#[test]
fn each_ending_has_its_text(rt: HostRuntime) {
    assert_row(&rt, "CRLF", LineEnding::CRLF.as_str() == "\r\n");
    assert_row(&rt, "LF", LineEnding::LF.as_str() == "\n");
}
