//! Balanced lines of a text, and the width that they have.
ghost use Rattle.std.specs.Prelude.{◌≡◌, ◌≢◌, ◌⊎◌, false, true, List, None, length, IfErr, IfOk, IsOk};
ghost use Rattle.std.specs.Prelude.{IsUtf8};
ghost use Rattle.textwrap.specs.Paragraph.{Line};
ghost use Rattle.textwrap_base.specs.Errors.{OnlyMemoryRunsOut};
ghost use Rattle.textwrap_calls.specs.Options.{AreKnown, AreTexts, TellsUnknown, TellsNotUtf8};
ghost use Rattle.textwrap_calls.specs.Options.{have_dictionary, TellsFaults};
ghost use Rattle.textwrap_calls.specs.Status.{done, not_utf8, out_of_memory, too_small};
ghost use Rattle.textwrap_calls.specs.Status.{unknown_options};
ghost use Rattle.textwrap_calls.specs.Wrapping.{WritesLongLines};
ghost use Rattle.textwrap_more_calls.specs.Balancing.{AreBalancedBy, AreByFirstFit, IsBalancedBy};
ghost use Rattle.textwrap_more_calls.specs.Balancing.{first_fit_at};
ghost use Rattle.textwrap_plain.specs.Balance.{IsBalanced};
ghost use Rattle.textwrap_plain.specs.Options.{plain_settings, plain_splitter, points_by, words_by};
ghost use Rattle.textwrap_plain.specs.declared.options.PlainSeparator.TheVariants.{AtBlanks};

use simdutf8::basic::from_utf8;
use std::alloc::Global;
use textwrap::WrapError;
use textwrap_calls::options::{TextwrapOptions, read_options};
use textwrap_calls::reported::TextwrapLine;
use textwrap_calls::status::{DONE, NOT_UTF8, OUT_OF_MEMORY};
use textwrap_calls::wrapping::textwrap_wrap_utf8;
use textwrap_layout::printable_cuts::BlankCuts;
use textwrap_plain::balancing::Balance;
use textwrap_plain::parts::PlainParts;
use textwrap_plain::{BuiltInAlgorithm, PlainOptions, PlainSeparator, balanced_width};

/// Writes the balanced lines of a text as `textwrap_wrap` writes its lines: those of first fit at the
/// width of `textwrap_balanced_width`. They are as many as by first fit at the width of the options. At
/// blanks and without a dictionary nothing is allocated, unless `split_at_hyphens` is 2.
pub fn textwrap_wrap_balanced(
    alloc: Global,
    text: &[u8],
    options: &TextwrapOptions<'_>,
    lines: &mut [TextwrapLine],
    count: &mut usize,
    room: &mut [u8],
    len: &mut usize,
) -> u32
    ensures balanced { WritesLongLines (AreBalancedBy options.now text.now)
        text.now result lines.old lines.new count.old count.new room.old room.new len.old len.new }
    ensures as_many { (result ≡ done) ⊎ (result ≡ too_small) → (others : List Line)
        → AreByFirstFit options.now text.now others → count.new ≡ length others }
    ensures faults { TellsFaults result (AreKnown options.now) (IsUtf8 text.now × AreTexts options.now) }
    ensures no_memory { options.now.unicode_breaks ≡ 0 → have_dictionary options.now ≡ false
        → options.now.split_at_hyphens ≢ 2 → result ≢ out_of_memory }
{
    let width = match find_width(alloc, text, options) {
        Ok(width) => width,
        Err(status) => return status,
    };
    let options = by_first_fit(options, width);
    textwrap_wrap_utf8(alloc, text, &options, lines, count, room, len)
}

/// Writes the least width at which first fit takes no more lines of a text than at the width of the
/// options, and at which each piece of it has room: the wider of the indents, and after it any one
/// word, split but not broken, with its hyphen. Where some piece has none at the width of the options,
/// it is that width. The algorithm of the options is not used. At blanks and without a dictionary nothing
/// is allocated, unless `split_at_hyphens` is 2.
///
/// At 40 columns `It was the best of times, it was the worst` takes two lines, and so it does at 23.
pub fn textwrap_balanced_width(
    alloc: Global,
    text: &[u8],
    options: &TextwrapOptions<'_>,
    width: &mut usize,
) -> u32
    ensures balanced { result ≡ done → IsBalancedBy options.now text.now width.new }
    ensures kept { result ≢ done → width.new ≡ width.old }
    ensures unknown { TellsUnknown result options.now }
    ensures not_utf8 { TellsNotUtf8 result options.now text.now }
    ensures no_memory { options.now.unicode_breaks ≡ 0 → have_dictionary options.now ≡ false
        → options.now.split_at_hyphens ≢ 2 → result ≢ out_of_memory }
    ensures statuses { (result ≡ done) ⊎ (result ≡ not_utf8) ⊎ (result ≡ out_of_memory)
        ⊎ (result ≡ unknown_options) }
{
    match find_width(alloc, text, options) {
        Ok(balanced) => {
            *width = balanced;
            DONE
        }
        Err(status) => status,
    }
}

/// The balanced width of a text.
///
/// # Errors
/// The status `UNKNOWN_OPTIONS`, `NOT_UTF8` or `OUT_OF_MEMORY`.
fn find_width(alloc: Global, text: &[u8], options: &TextwrapOptions<'_>) -> Result<usize, u32>
    ensures balanced { IfOk result (IsBalancedBy options.now text.now) }
    ensures known { IfOk result (λ _. AreKnown options.now) }
    ensures texts { IfOk result (λ _. IsUtf8 text.now × AreTexts options.now) }
    ensures refused { IfErr result (λ status.
        ((status ≡ unknown_options) × ¬ AreKnown options.now)
        ⊎ ((status ≡ not_utf8) × AreKnown options.now × ¬ (IsUtf8 text.now × AreTexts options.now))
        ⊎ ((status ≡ out_of_memory) × AreKnown options.now
        × (IsUtf8 text.now × AreTexts options.now)
        × ((options.now.unicode_breaks ≢ 0) ⊎ (have_dictionary options.now ≡ true)
        ⊎ (options.now.split_at_hyphens ≡ 2)))) }
{
    let options = read_options(options)?;
    let Ok(text) = from_utf8(text) else {
        return Err(NOT_UTF8);
    };
    match find_balance(alloc, text, &options) {
        Ok(balance) => Ok(balance.width),
        Err(_) => Err(OUT_OF_MEMORY),
    }
}

/// The balanced width by the library's options. At blanks loops ask of no byte where words end.
///
/// # Errors
/// [`WrapError::Memory`] where memory runs out.
fn find_balance(alloc: Global, text: &str, options: &PlainOptions<'_>) -> Result<Balance, WrapError>
    ensures balanced { IfOk result (λ balance. IsBalanced (plain_settings options.now)
        (words_by options.now.word_separator) (points_by options.now.word_splitter) text.now
        balance.width) }
    ensures done { options.now.word_separator ≡ AtBlanks → plain_splitter options.now ≢ None
        → IsOk result }
    ensures only_memory { OnlyMemoryRunsOut result }
{
    let layout = options.layout();
    match options.word_separator {
        PlainSeparator::AtBlanks => {
            let parts = PlainParts {
                words: BlankCuts {},
                splitter: options.word_splitter,
                algorithm: BuiltInAlgorithm::FirstFit,
            };
            balanced_width(alloc, text, layout, &parts)
        }
        PlainSeparator::AtBreaks(_) => balanced_width(alloc, text, layout, &options.parts(alloc)),
    }
}

/// The options at a width, by first fit.
fn by_first_fit<'a>(options: &TextwrapOptions<'a>, width: usize) -> TextwrapOptions<'a>
    ensures { result ≡ first_fit_at options.now width }
{
    TextwrapOptions {
        optimal_fit: 0,
        width,
        ..*options
    }
}
