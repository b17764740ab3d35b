//! The help texts of a program.
ghost use Rattle.std.specs.Prelude.{codes, map, string_bytes, IfOk};
ghost use Rattle.textwrap.specs.Filling.{IsFilledBy};
ghost use Rattle.textwrap.specs.Options.{settings_at, default_algorithm};
ghost use Rattle.textwrap_display.specs.Tables.{IsTableOf, texts_in};
ghost use Rattle.vectors_beside.specs.Help.{help_columns, help_gaps, IsFittedHelp};
ghost use Rattle.textwrap.specs.Errors.{OnlyMemoryRunsOut};

use std::alloc::Global;
use textwrap::{Options, WrapError, fill};
use textwrap_display::laws::{fitting_widths_add_up, table_rows_are_even, tables_have_named_parts};
use textwrap_display::{Alignment, Column, Gaps, Layout, Need, fitting_widths, needs_of, table};

/// The help of a flag: the flag, and beside it the text, filled at the width. Later lines are
/// indented by eight blanks.
pub fn help_entry(alloc: Global, flag: &str, text: &str, width: usize) -> Result<String, WrapError>
    ensures filled { IfOk result (λ entry. IsFilledBy
        (record (settings_at width) {
          initial_indent = flag.now;
          subsequent_indent = codes "        ";
        })
        default_algorithm text.now (string_bytes entry)) }
    ensures only_memory { OnlyMemoryRunsOut result }
{
    let options = Options::new(width)
        .initial_indent(flag)
        .subsequent_indent("        ");
    let entry = fill(alloc, text, options)?;
    Ok(entry)
}

/// The help of a program, row by row: flags at the left, in so many columns, and beside each its text,
/// in what these leave of the width. The entries are a flag, its text, the next flag, and so on.
///
/// At 6 and 26 columns, `-h`, `Print this help.`, `-w N` and `Wrap at N columns.` have the rows
/// `  -h      Print this help.` and `  -w N    Wrap at N`, and one with the text `columns.` alone (the
/// blanks at the ends of rows are not shown).
pub fn help_rows(
    alloc: Global,
    entries: &[&str],
    flag_width: usize,
    width: usize,
) -> Result<Vec<String>, WrapError>
    ensures table { IfOk result (λ rows. IsTableOf (help_columns flag_width width) help_gaps
        (texts_in entries.now) (map string_bytes rows.items)) }
    ensures only_memory { OnlyMemoryRunsOut result }
{
    let text_width = width.saturating_sub(flag_width.saturating_add(4));
    let columns = [
        Column {
            layout: Layout::new(flag_width),
            parts: Options::new(flag_width),
            alignment: Alignment::Left,
        },
        Column {
            layout: Layout::new(text_width),
            parts: Options::new(text_width),
            alignment: Alignment::Left,
        },
    ];
    let gaps = Gaps {
        left: "  ",
        middle: "  ",
        right: "",
    };
    tables_have_named_parts(&columns);
    let rows = table(alloc, entries, &columns, &gaps)?;
    Ok(rows)
}

/// The same, where the flags are as wide as the widest of them if the words of the texts have room
/// beside them, and the rows no wider than what stands in them.
///
/// At 60 columns `-h`, `Print this help.`, `--width N` and `Wrap at N columns.` have the rows
/// `  -h         Print this help.` and `  --width N  Wrap at N columns.`; at 20 the texts become
/// narrower, and the flags stay.
pub fn fitted_help_rows(
    alloc: Global,
    entries: &[&str],
    width: usize,
) -> Result<Vec<String>, WrapError>
    // The widths add up, and the rows are a table of columns of these widths. All rows are as wide as
    // one another, if no line is wider than its column and its escape sequences end in it.
    ensures table { IfOk result (λ rows. IsFittedHelp width (texts_in entries.now)
        (map string_bytes rows.items)) }
    ensures only_memory { OnlyMemoryRunsOut result }
{
    fitting_widths_add_up();
    table_rows_are_even();
    let needs = needs_of(alloc, entries, 2)?;
    let (flags, texts) = (needs[0].most, needs[1]);
    let needs = [
        Need {
            least: flags,
            most: flags,
        },
        texts,
    ];
    let lines = flags.saturating_add(texts.least.max(texts.most));
    let total = width.saturating_sub(4).min(lines);
    let widths = fitting_widths(alloc, total, &needs)?;
    help_rows(alloc, entries, widths[0], total + 4)
}
