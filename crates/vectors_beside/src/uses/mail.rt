//! Quoted mail.
ghost use Rattle.std.specs.Prelude.{◌≡◌, codes, map, string_bytes, IfOk};
ghost use Rattle.std.specs.List.{flat_map};
ghost use Rattle.textwrap.specs.Filling.{IsFilledAt, IsFilledBy};
ghost use Rattle.textwrap.specs.Indentation.{ended_parts, indented, unindented_part};
ghost use Rattle.textwrap.specs.Options.{settings_at, settings_view, default_algorithm};
ghost use Rattle.textwrap.specs.Options.{MayOverflow};
ghost use Rattle.textwrap.specs.Paragraph.{line_view, DividesBy};
ghost use Rattle.textwrap.specs.Refilling.{IsPlain, blanked};
ghost use Rattle.textwrap.specs.Text.{AreTextLines};
ghost use Rattle.textwrap.specs.declared.LineEnding.TheVariants.{CRLF};
ghost use Rattle.textwrap.specs.Errors.{OnlyMemoryRunsOut};

use std::alloc::{AllocError, Global};
use std::borrow::CowStr;
use textwrap::laws::{indents_are_parts, refilling_is_filling};
use textwrap::{LineEnding, Options, WrapError, fill, indent, refill, wrap};

/// The mail, filled with `> ` before each line.
pub fn quote(alloc: Global, mail: &str, width: usize) -> Result<String, WrapError>
    ensures filled { IfOk result (λ quoted. IsFilledBy
        (record (settings_at width) {
          initial_indent = codes "> ";
          subsequent_indent = codes "> ";
        })
        default_algorithm mail.now (string_bytes quoted)) }
    ensures only_memory { OnlyMemoryRunsOut result }
{
    let options = Options::new(width)
        .initial_indent("> ")
        .subsequent_indent("> ");
    let quoted = fill(alloc, mail, options)?;
    Ok(quoted)
}

/// The mail with `> ` before each line as it stands, and `>` before an empty one: `"Hi\n\nyou\n"`
/// becomes `"> Hi\n>\n> you\n"`.
pub fn quoted_as_it_is(alloc: Global, mail: &str) -> Result<String, AllocError>
    ensures quoted { IfOk result (λ quoted. string_bytes quoted ≡ indented (codes "> ") mail.now) }
    // Each line without what was put before it: the mail comes back.
    ensures comes_back { IfOk result (λ quoted. flat_map (unindented_part (codes "> "))
        (ended_parts (string_bytes quoted)) ≡ mail.now) }
{
    indents_are_parts();
    let quoted = indent(alloc, mail, "> ")?;
    Ok(quoted)
}

/// A paragraph of a mail, whose lines were broken anywhere, filled with lines of so many columns: at
/// 7 `foo`, `bar baz` becomes `foo bar`, `baz`.
pub fn filled_anew(alloc: Global, paragraph: &str, width: usize) -> Result<String, WrapError>
    // Where the lines stood apart does not matter: a plain paragraph is filled as if it stood on one
    // line.
    ensures filled { IfOk result (λ filled. IsPlain paragraph.now
        → IsFilledAt width default_algorithm (blanked paragraph.now) (string_bytes filled)) }
    ensures only_memory { OnlyMemoryRunsOut result }
{
    refilling_is_filling();
    let filled = refill(alloc, paragraph, Options::new(width))?;
    Ok(filled)
}

/// The lines of a mail as it is sent, with CRLF between its paragraphs. The options are lent, so
/// that the caller can use them again.
pub fn sent_lines<'m>(
    alloc: Global,
    mail: &'m str,
    options: &Options<'_>,
) -> Result<Vec<CowStr<'m>>, WrapError>
    ensures lines { IfOk result (λ lines. AreTextLines
        (record (settings_view options.now) { line_ending = CRLF })
        (DividesBy (record options.now { line_ending = CRLF })) mail.now
        (map line_view lines.items)) }
    ensures only_memory { ¬ MayOverflow options.now → OnlyMemoryRunsOut result }
{
    let options = Options::from(options).line_ending(LineEnding::CRLF);
    let lines = wrap(alloc, mail, options)?;
    Ok(lines)
}
