//! The lines of a block: as they are, or filled.
ghost use Rattle.std.specs.Prelude.{◌≡◌, ℕ, ◌++◌, [], ◌∷◌, List, map, IfOk, OnOk};
ghost use Rattle.std.specs.Prelude.{string_bytes};
ghost use Rattle.std.specs.List.{flat_map};
ghost use Rattle.textwrap_base.specs.Algorithms.{ByOptimalFit, IsDividedBy};
ghost use Rattle.textwrap_base.specs.Errors.{Overflowed};
ghost use Rattle.textwrap_display.specs.Justifying.{justified};
ghost use Rattle.textwrap_layout.specs.Paragraph.{covered, line_bytes};
ghost use Rattle.textwrap_words.specs.Words.{WordText, sizes_of, word_of};
ghost use Rattle.textwrap_words.specs.Cuts.{AreCuts, parts_between};
ghost use Rattle.textwrap_marks.specs.declared.options.Algorithm.TheVariants.{LeastCost};
ghost use Rattle.textwrap_marked_lines.specs.Lines.{marked_line_view};
ghost use Rattle.textwrap_marked.specs.Pieces.{piece_view};
ghost use Rattle.textwrap_marked.specs.Reflow.{break_white, ending_if, filled_end};
ghost use Rattle.textwrap_marked.specs.Reflow.{filled_ends, AreFilled, kept_line};
ghost use Rattle.textwrap_marked.specs.Reflow.{kept_text, line_text, line_texts, printed, room_behind};

use crate::first_fit::push_by_first_fit;
use crate::least_cost::divide_at_least_cost;
use crate::pieces::{JoinedPiece, JoinedWords, joined_of, pieces_between};
use std::alloc::{AllocError, Global};
use textwrap_display::justify;
use textwrap_lines::LineEnding;
use textwrap_marked_lines::columns::columns;
use textwrap_marked_lines::lines::{MarkedLine, without_returns};
use textwrap_marks::options::{Algorithm, ReflowOptions};
use textwrap_marks::signs::last_white;
use textwrap_marks::words::ends_with;
use textwrap_words::wrap_algorithms::{Penalties, WrapError};

/// Adds an ending where a line feed was.
fn push_ending(output: &mut String, ending: &str, fed: bool) -> Result<(), AllocError>
    ensures { OnOk result (string_bytes output.new
        ≡ string_bytes output.old ++ ending_if fed ending.now) }
{
    if fed { output.push_str(ending) } else { Ok(()) }
}

/// Adds a line as it is, but for its ending, if another one is asked for.
fn push_line(
    output: &mut String,
    line: &MarkedLine<'_>,
    ending: Option<LineEnding>,
) -> Result<(), AllocError>
    ensures { OnOk result (string_bytes output.new
        ≡ string_bytes output.old ++ kept_line ending (marked_line_view line.now)) }
{
    match ending {
        None => {
            output.push_str(line.raw)?;
            push_ending(output, "\n", line.fed)
        }
        Some(ending) => {
            output.push_str(without_returns(line.raw))?;
            push_ending(output, ending.as_str(), line.fed)
        }
    }
}

/// Adds lines as they are.
pub(crate) fn push_kept(
    output: &mut String,
    lines: &[MarkedLine<'_>],
    options: &ReflowOptions<'_>,
) -> Result<(), AllocError>
    ensures { OnOk result (string_bytes output.new
        ≡ string_bytes output.old ++ kept_text options.now (map marked_line_view lines.now)) }
{
    for line in lines {
        push_line(output, line, options.ending)?;
    }
    Ok(())
}

/// Adds the pieces of a line, without the last one's blank.
fn push_pieces(output: &mut String, line: &[JoinedPiece<'_>]) -> Result<(), AllocError>
    ensures { OnOk result (string_bytes output.new
        ≡ string_bytes output.old ++ covered (map piece_view line.now)) }
{
    for (i, piece) in line.iter().enumerate() {
        if i + 1 < line.len() {
            output.push_str(piece.text)?;
        } else {
            output.push_str(piece.word())?;
        }
    }
    Ok(())
}

/// Adds the pieces of a line, with the gaps between words widened up to so many columns.
fn push_justified(
    alloc: Global,
    output: &mut String,
    line: &[JoinedPiece<'_>],
    room: usize,
) -> Result<(), AllocError>
    ensures { OnOk result (string_bytes output.new
        ≡ string_bytes output.old ++ line_bytes (justified room (covered (map piece_view line.now)))) }
{
    let mut text = String::new(alloc);
    push_pieces(&mut text, line)?;
    let text = justify(alloc, text.as_str(), room)?;
    output.push_str(&text)
}

/// Adds the pieces of a line, which is justified at so many columns, if that is asked for.
fn push_text(
    alloc: Global,
    output: &mut String,
    line: &[JoinedPiece<'_>],
    room: usize,
    justify: bool,
) -> Result<(), AllocError>
    ensures { OnOk result (string_bytes output.new
        ≡ string_bytes output.old ++ line_text justify room (map piece_view line.now)) }
{
    if justify {
        push_justified(alloc, output, line, room)
    } else {
        push_pieces(output, line)
    }
}

/// What a prefix leaves of the width of a line.
pub(crate) fn room_behind(prefix: &str, options: &ReflowOptions<'_>) -> usize
    ensures { result ≡ room_behind options.now prefix.now }
{
    options.width.saturating_sub(columns(prefix))
}

/// Adds the later lines of a division, each behind an ending and the hanging form.
fn push_later(
    alloc: Global,
    output: &mut String,
    lines: &[&[JoinedPiece<'_>]],
    ending: &str,
    hanging: &str,
    room: usize,
    justify: bool,
) -> Result<(), AllocError>
    ensures { OnOk result (string_bytes output.new ≡ string_bytes output.old
        ++ flat_map (λ text. (ending.now ++ hanging.now) ++ text) (line_texts justify room room
        (map (map piece_view) (map (λ line. line.now) lines.now)))) }
{
    for (i, line) in lines.iter().enumerate() {
        output.push_str(ending)?;
        output.push_str(hanging)?;
        push_text(alloc, output, line, room, justify & (i + 1 < lines.len()))?;
    }
    Ok(())
}

/// Adds the lines of a division: the first behind its prefix, each later one behind an ending and
/// the hanging form.
fn push_division(
    alloc: Global,
    output: &mut String,
    lines: &[&[JoinedPiece<'_>]],
    ending: &str,
    prefix: &str,
    hanging: &str,
    options: &ReflowOptions<'_>,
) -> Result<(), AllocError>
    ensures { OnOk result (string_bytes output.new ≡ string_bytes output.old
        ++ printed ending.now prefix.now hanging.now (line_texts options.now.justify
        (room_behind options.now prefix.now) (room_behind options.now hanging.now)
        (map (map piece_view) (map (λ line. line.now) lines.now)))) }
{
    let [line, later @ ..] = lines else {
        return Ok(());
    };
    let justify = options.justify;
    let room = room_behind(prefix, options);
    output.push_str(prefix)?;
    push_text(alloc, output, line, room, justify & !later.is_empty())?;
    let room = room_behind(hanging, options);
    push_later(alloc, output, later, ending, hanging, room, justify)
}

/// Adds the white of a hard break.
fn push_break(output: &mut String, line: &MarkedLine<'_>) -> Result<(), AllocError>
    ensures { OnOk result (string_bytes output.new
        ≡ string_bytes output.old ++ break_white (marked_line_view line.now)) }
{
    let white = last_white(line.text);
    if ends_with(white, "  ") {
        output.push_str(white)
    } else {
        Ok(())
    }
}

/// Adds what stands behind each of these lines: the white of a hard break, and the ending.
fn push_ends(output: &mut String, lines: &[MarkedLine<'_>], ending: &str) -> Result<(), AllocError>
    ensures { OnOk result (string_bytes output.new
        ≡ string_bytes output.old ++ filled_ends ending.now (map marked_line_view lines.now)) }
{
    for line in lines {
        push_break(output, line)?;
        push_ending(output, ending, line.fed)?;
    }
    Ok(())
}

/// Adds what stands behind the last of these lines.
fn push_end(output: &mut String, lines: &[MarkedLine<'_>], ending: &str) -> Result<(), AllocError>
    ensures { OnOk result (string_bytes output.new
        ≡ string_bytes output.old ++ filled_end ending.now (map marked_line_view lines.now)) }
{
    let (_, last) = lines.split_at(lines.len().saturating_sub(1));
    push_ends(output, last, ending)
}

/// Adds the lines of least cost of the text of a paragraph, which may be cut there.
fn push_joined(
    alloc: Global,
    output: &mut String,
    text: &str,
    cuts: Vec<usize>,
    ending: &str,
    prefix: &str,
    hanging: &str,
    penalties: &Penalties,
    options: &ReflowOptions<'_>,
) -> Result<(), WrapError>
    requires { AreCuts text.now cuts.items }
    ensures lines { OnOk result ((division : List (List WordText))
        × IsDividedBy (ByOptimalFit penalties.now) sizes_of
        (room_behind options.now prefix.now ∷ room_behind options.now hanging.now ∷ [])
        (map word_of (parts_between cuts.items text.now)) division
        × (string_bytes output.new ≡ string_bytes output.old ++ printed ending.now prefix.now hanging.now
        (line_texts options.now.justify (room_behind options.now prefix.now)
        (room_behind options.now hanging.now) division))) }
    ensures only_memory { ¬ Overflowed result }
{
    let pieces = pieces_between(alloc, text, &cuts)?;
    drop(cuts);
    let widths = [room_behind(prefix, options), room_behind(hanging, options)];
    let division = divide_at_least_cost(alloc, penalties, &pieces, &widths)?;
    push_division(alloc, output, &division, ending, prefix, hanging, options)?;
    Ok(())
}

/// Adds a paragraph, filled at least cost. What is kept of its lines is let go of before they are
/// divided.
fn push_at_least_cost(
    alloc: Global,
    output: &mut String,
    lines: Vec<MarkedLine<'_>>,
    ending: &str,
    penalties: &Penalties,
    options: &ReflowOptions<'_>,
) -> Result<(), WrapError>
    requires { options.now.algorithm ≡ LeastCost penalties.now }
    ensures filled { OnOk result ((text : List ℕ)
        × AreFilled options.now ending.now (map marked_line_view lines.entry.items) text
        × (string_bytes output.new ≡ string_bytes output.old ++ text)) }
    ensures only_memory { ¬ Overflowed result }
{
    let [first, ..] = lines.as_slice() else {
        return Ok(());
    };
    let joined = joined_of(alloc, &lines, first.starred, options)?;
    let prefix = first.prefix;
    let hanging = String::from_str(alloc, first.hanging.as_str())?;
    let mut end = String::new(alloc);
    push_end(&mut end, &lines, ending)?;
    drop(lines);
    let JoinedWords { text, cuts, .. } = joined;
    push_joined(
        alloc,
        output,
        text.as_str(),
        cuts,
        ending,
        prefix,
        hanging.as_str(),
        penalties,
        options,
    )?;
    output.push_str(end.as_str())?;
    Ok(())
}

/// Adds a paragraph, filled.
pub(crate) fn push_filled(
    alloc: Global,
    output: &mut String,
    lines: Vec<MarkedLine<'_>>,
    ending: &str,
    options: &ReflowOptions<'_>,
) -> Result<(), WrapError>
    ensures filled { OnOk result ((text : List ℕ)
        × AreFilled options.now ending.now (map marked_line_view lines.entry.items) text
        × (string_bytes output.new ≡ string_bytes output.old ++ text)) }
    ensures only_memory { ¬ Overflowed result }
{
    if let Algorithm::LeastCost(penalties) = options.algorithm {
        return push_at_least_cost(alloc, output, lines, ending, &penalties, options);
    }
    let [first, ..] = lines.as_slice() else {
        return Ok(());
    };
    push_by_first_fit(alloc, output, first, &lines, ending, options)?;
    push_end(output, &lines, ending)?;
    Ok(())
}
