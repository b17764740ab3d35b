//! Comments in the source of a program.
ghost use Rattle.std.specs.Prelude.{◌≡◌, ℕ, List, drop, map, string_bytes, IfOk};
ghost use Rattle.std.specs.Str.Lines.{lines};
ghost use Rattle.textwrap.specs.Laws.{IsIndentedFill, IsFilledWhole, unbroken_at, with_indents_as};
ghost use Rattle.textwrap.specs.Options.{Settings, default_algorithm};
ghost use Rattle.textwrap.specs.Refilling.{IsCommonPrefix, line_prefix};
ghost use Rattle.textwrap.specs.WrapAlgorithms.{Algorithm};
ghost use Rattle.textwrap.specs.Errors.{OnlyMemoryRunsOut};

use std::alloc::{AllocError, Global};
use textwrap::laws::{common_prefixes_are_unique, refilling_keeps_indents};
use textwrap::{Options, WordSplitter, WrapError, refill, unfill};

/// A comment, filled again with lines of so many columns. Its marks stay, and no word is split or
/// broken: at 16 columns the lines `/// A short`, `/// line of` and `/// text` become
/// `/// A short line` and `/// of text`.
pub fn rewrapped(alloc: Global, comment: &str, width: usize) -> Result<String, WrapError>
    // Whatever plain text was filled into this comment under two indents, and at whatever width, the
    // result is that text, filled at the new width under the same two indents.
    ensures kept { IfOk result (λ rewrapped. (first : Settings) (one : Algorithm) (text : List ℕ)
        → IsIndentedFill first one text comment.now
        → IsFilledWhole (with_indents_as first (unbroken_at width)) default_algorithm text
        (string_bytes rewrapped)) }
    ensures only_memory { OnlyMemoryRunsOut result }
{
    refilling_keeps_indents();
    let unsplit = WordSplitter::NoHyphenation;
    let options = Options::new(width)
        .break_words(false)
        .word_splitter(unsplit);
    let rewrapped = refill(alloc, comment, options)?;
    Ok(rewrapped)
}

/// The mark that the lines of a comment after its first one have in common, of blanks and `-`, `+`,
/// `*`, `>`, `#`, `/`: of `/* A`, ` * short` and ` * comment` it is ` * `.
pub fn common_mark<'c>(alloc: Global, comment: &'c str) -> Result<&'c str, AllocError>
    // Whatever is a common prefix of what these lines begin with of such characters is the mark.
    ensures common { IfOk result (λ mark. (prefix : List ℕ)
        → IsCommonPrefix (map line_prefix (drop 1 (lines comment.now))) prefix
        → mark.now ≡ prefix) }
{
    common_prefixes_are_unique();
    let (_text, options) = unfill(alloc, comment)?;
    Ok(options.subsequent_indent)
}
