//! What the calls that hyphenate a text give.
use crate::dictionaries::dictionary;
use crate::faults::Fault;
use crate::notation::push_text;
use crate::settings::options;
use std::alloc::Global;
use textwrap::inner::refill_by;
use textwrap::wrap_algorithms::Penalties;
use textwrap::{Options, WrapAlgorithm, WrapError};
use textwrap_hyphens::table::PatternTable;
use textwrap_layout::layout::Layout;
use textwrap_lines::inner::fill_by;
use textwrap_plain::{
    BuiltInAlgorithm, BuiltInSplitter, Hyphenated, PlainOptions, PlainSeparator, PlainSplitter,
    fill,
};

/// The text, filled or refilled with these hyphens, by options that may have functions.
fn by_any_options(
    alloc: Global,
    text: &str,
    options: &Options<'_>,
    patterns: &PatternTable<'_>,
    is_refilled: bool,
) -> Result<String, WrapError> {
    let layout = Layout {
        room_for_hyphens: true,
        ..Layout::of(options)
    };
    let parts = Hyphenated {
        parts: options,
        patterns,
    };
    if is_refilled {
        refill_by(alloc, text, layout, &parts)
    } else {
        fill_by(alloc, text, layout, &parts)
    }
}

/// The same by options without functions.
fn by_plain_options(
    alloc: Global,
    text: &str,
    options: &Options<'_>,
    wrap_algorithm: BuiltInAlgorithm,
    word_splitter: PlainSplitter<'_>,
    is_refilled: bool,
) -> Result<String, WrapError> {
    let plain = PlainOptions {
        layout: Layout::of(options),
        word_separator: PlainSeparator::AtBlanks,
        word_splitter,
        wrap_algorithm,
    };
    if is_refilled {
        refill_by(alloc, text, plain.layout(), &plain.parts(alloc))
    } else {
        fill(alloc, text, &plain)
    }
}

/// `hyphenated DICTIONARY TEXT WIDTH SETTINGS..`, or `rehyphenated`: the filled or the refilled text, by
/// first fit and by least cost, if it is the same by both kinds of options.
pub fn hyphenated(alloc: Global, arguments: &[String], is_refilled: bool) -> Result<String, Fault> {
    let [name, text, settings @ ..] = arguments else {
        return Err(Fault::Malformed);
    };
    let (text, patterns) = (text.as_str(), dictionary(alloc, name.as_str())?);
    let table = patterns.table();
    let first = options(settings)?.wrap_algorithm(WrapAlgorithm::FirstFit);
    let least = options(settings)?.wrap_algorithm(WrapAlgorithm::new());
    let built_in_least = BuiltInAlgorithm::OptimalFit(Penalties::new());
    let mut row = String::new(alloc);
    for (options, algorithm) in [
        (&first, BuiltInAlgorithm::FirstFit),
        (&least, built_in_least),
    ] {
        let given = by_any_options(alloc, text, options, &table, is_refilled)?;
        let splitter = PlainSplitter::Dictionary(table);
        let plain = by_plain_options(alloc, text, options, algorithm, splitter, is_refilled)?;
        push_text(&mut row, "", &given)?;
        if given.as_str() != plain.as_str() {
            push_text(&mut row, "but plainly ", &plain)?;
        }
    }
    Ok(row)
}

/// `plain TEXT WIDTH SETTINGS..`: the text filled by options without functions, by first fit and by
/// least cost, where words are split behind hyphens alone.
pub fn plain(alloc: Global, arguments: &[String]) -> Result<String, Fault> {
    let [text, settings @ ..] = arguments else {
        return Err(Fault::Malformed);
    };
    let options = options(settings)?;
    let least_cost = BuiltInAlgorithm::OptimalFit(Penalties::new());
    let splitter = PlainSplitter::BuiltIn(BuiltInSplitter::HyphenSplitter);
    let mut row = String::new(alloc);
    for algorithm in [BuiltInAlgorithm::FirstFit, least_cost] {
        let text = text.as_str();
        let filled = by_plain_options(alloc, text, &options, algorithm, splitter, false)?;
        push_text(&mut row, "", &filled)?;
    }
    Ok(row)
}
