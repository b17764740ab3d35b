//! Large lists: of texts, of places in a paragraph, and of fragments.
use super::fragments::PENALTIES;
use super::large::{
    HALF, LEN, LINE, LINES, Told, assert_told_twice, last_piece, write_lines_twice,
};
use super::plain::{
    AT_80, BARS, BEFORE, DEFAULTS, LinesCall, NO_PIECE, NOWHERE, OffsetsCall, PiecesCall,
    assert_holds, assert_number, assert_told, write_offsets,
};
use std::alloc::{AllocError, Global};
use std::process::Abort;
use textwrap_calls::options::TextwrapOptions;
use textwrap_calls::status::{DONE, TOO_SMALL};
use textwrap_calls::texts::TextwrapText;
use textwrap_calls::wrapping::TextwrapLine;
use textwrap_more_calls::fragments::TextwrapFragment;
use textwrap_more_calls::pieces::TextwrapPiece;
use textwrap_more_calls::steps::{textwrap_lines_at, textwrap_pieces_at};
use textwrap_more_calls::tables::{TextwrapCell, TextwrapColumn, textwrap_table_of_lines};

/// What a call tells, its status and how many, and one of them, if there was memory for it.
type OneTold = Result<((u32, usize), usize), AllocError>;

/// A line of the large text.
const TEXT: TextwrapText<'_> = TextwrapText {
    bytes: b"foo bar baz",
};

/// The defaults at the width of a line.
const AT_11: TextwrapOptions<'_> = TextwrapOptions {
    width: 11,
    ..DEFAULTS
};

/// All lines but the last one, which leaves the one before it cut.
fn shortened_lines(alloc: Global) -> Told {
    let lines = vec![in alloc; TEXT; LINES]?;
    let call = LinesCall::ShortenLines(&lines, LINES - 1, 10, b"+++");
    write_lines_twice(alloc, false, call, b"", LINES)
}

/// A line that leaves a style open.
const STYLED: TextwrapText<'_> = TextwrapText {
    bytes: b"\x1b[1mfoo",
};

/// A line that ends the style.
const PLAIN_AGAIN: TextwrapText<'_> = TextwrapText {
    bytes: b"bar\x1b[m",
};

/// Lines in pairs, with a style that is on from the start of the first to the end of the second, carried.
fn carried(alloc: Global) -> Told {
    let mut lines = vec![in alloc; STYLED; LINES]?;
    for i in 0..HALF {
        if let Some(line) = lines.get_mut(2 * i + 1) {
            *line = PLAIN_AGAIN;
        }
    }
    let call = LinesCall::CarryStyles(&lines, AT_11);
    write_lines_twice(alloc, false, call, b"", LINES)
}

/// A column of a line's width, whose lines stand at the left.
const LEFT: TextwrapColumn<'_> = TextwrapColumn {
    options: AT_11,
    alignment: 0,
    reserved: 0,
};

/// The same, and one whose lines stand at the right.
#[rattlefmt::skip]
const COLUMNS: &[TextwrapColumn<'_>] = &[LEFT, TextwrapColumn { options: AT_11, alignment: 1, reserved: 0 }];

/// The lines in two columns, with a bar beside each.
fn table(alloc: Global) -> Told {
    let cells = vec![in alloc; TEXT; LINES]?;
    let call = LinesCall::Table(&cells, COLUMNS, BARS);
    write_lines_twice(alloc, false, call, b"", HALF)
}

/// The lines in two columns of a row of 25, with a bar beside each.
fn rows_of_lines(alloc: Global) -> Told {
    let lines = vec![in alloc; TEXT; LINES]?;
    let call = LinesCall::RowsOfLines(&lines, 2, 25, BARS);
    write_lines_twice(alloc, false, call, b"", HALF)
}

/// What is told of the same lines as those of two cells. They are of two lifetimes, so the call is
/// made here.
fn table_of_lines(alloc: Global) -> Result<(u32, usize, usize), AllocError> {
    let lines = vec![in alloc; TEXT; HALF]?;
    let cell = TextwrapCell { lines: &lines };
    let cells = [cell, cell];
    let mut rows = vec![in alloc; NOWHERE; HALF]?;
    let mut room = vec![in alloc; b'.'; 25 * HALF]?;
    let (mut count, mut len) = (BEFORE, BEFORE);
    let status = textwrap_table_of_lines(
        alloc, &cells, COLUMNS, &BARS, &mut rows, &mut count, &mut room, &mut len,
    );
    Ok((status, count, len))
}

/// Two rows of 200 columns, with a bar beside each.
fn wide_table(alloc: Global) -> Told {
    let cells = vec![in alloc; TEXT; 400]?;
    let columns = vec![in alloc; LEFT; 200]?;
    let call = LinesCall::Table(&cells, &columns, BARS);
    write_lines_twice(alloc, false, call, b"", 2)
}

#[test]
fn a_large_list_is_shortened_carried_and_laid_out(rt: HostRuntime) {
    assert_told_twice(&rt, 0, shortened_lines(rt.alloc()), 11 * (LINES - 2) + 10);
    assert_told_twice(&rt, 1, carried(rt.alloc()), 21 * HALF);
    assert_told_twice(&rt, 2, table(rt.alloc()), 25 * HALF);
    assert_told_twice(&rt, 3, wide_table(rt.alloc()), 2 * (200 * 11 + 201));
    assert_told_twice(&rt, 4, rows_of_lines(rt.alloc()), 25 * HALF);
    let told = table_of_lines(rt.alloc()).expect(&rt, "cells");
    assert_holds(&rt, 5, told == (DONE, HALF, 25 * HALF));
}

/// The first so many multiples of a number.
fn multiples(alloc: Global, most: usize, step: usize) -> Result<Vec<usize>, AllocError> {
    let mut numbers = Vec::new(alloc);
    for before in 0..most {
        numbers.push(step.saturating_mul(before + 1))?;
    }
    Ok(numbers)
}

/// What is told of the pieces of the large text at cuts after each of its lines but the last, and at these
/// points; and where the last piece stands. Their lists are of several lifetimes, so the call is made
/// here.
fn pieces_in_steps(alloc: Global, points: &[usize]) -> OneTold {
    let text = LINE.repeat(alloc, LINES)?;
    let cuts = multiples(alloc, LINES - 1, LINE.len())?;
    let mut pieces = vec![in alloc; NO_PIECE; LINES]?;
    let mut count = BEFORE;
    let text = text.as_bytes();
    let status = textwrap_pieces_at(alloc, text, &cuts, points, &AT_80, &mut pieces, &mut count);
    Ok(((status, count), offset_of_last(&pieces)))
}

/// Asserts that there was memory for a call, how many it told, and one of them.
fn assert_one_told(rt: &impl Abort, row: usize, found: OneTold, (count, one): (usize, usize)) {
    let (told, found) = found.expect(rt, "memory");
    assert_told(rt, row, told, (DONE, count));
    assert_number(rt, row, found, one);
}

/// Where the last piece stands.
fn offset_of_last(pieces: &[TextwrapPiece]) -> usize {
    match pieces.last() {
        Some(last) => last.offset,
        None => BEFORE,
    }
}

/// What is told of the lines and of the room, and where the tenth line stands.
type LinesTold = Result<((u32, usize, usize), (usize, usize)), AllocError>;

/// The same of the lines of a text, with a piece in each.
fn tenth_line(alloc: Global, text: &[u8], cuts: &[usize], ends: &[usize]) -> LinesTold {
    let mut lines = vec![in alloc; NOWHERE; LINES]?;
    let (mut count, mut len) = (BEFORE, BEFORE);
    let points: &[usize] = &[];
    let room: &mut [u8] = &mut [];
    let status = textwrap_lines_at(
        alloc, text, cuts, points, ends, &AT_80, 1, &mut lines, &mut count, room, &mut len,
    );
    Ok(((status, count, len), place_at(&lines, 9)))
}

/// Where a line stands.
fn place_at(lines: &[TextwrapLine], at: usize) -> (usize, usize) {
    match lines.get(at) {
        Some(line) => (line.offset, line.len),
        None => (BEFORE, BEFORE),
    }
}

/// The lines that end after each piece.
fn lines_in_steps(alloc: Global) -> LinesTold {
    let text = LINE.repeat(alloc, LINES)?;
    let cuts = multiples(alloc, LINES - 1, LINE.len())?;
    let ends = multiples(alloc, LINES, 1)?;
    tenth_line(alloc, text.as_bytes(), &cuts, &ends)
}

/// What is told of the words of a line at 1,000 offsets, and where the last stands.
fn words_at_many(alloc: Global) -> OneTold {
    let text = LINE.repeat(alloc, 1_001)?;
    let offsets = multiples(alloc, 1_000, LINE.len())?;
    let call = PiecesCall::WordsAt(&offsets);
    let (told, last) = last_piece(alloc, call, text.as_bytes(), 1_001)?;
    Ok((told, last.offset))
}

#[test]
fn a_large_paragraph_has_pieces_in_steps(rt: HostRuntime) {
    let (told, _) = pieces_in_steps(rt.alloc(), &[2]).expect(&rt, "room");
    assert_told(&rt, 0, told, (TOO_SMALL, LINES + 1));
    let found = pieces_in_steps(rt.alloc(), &[]);
    assert_one_told(&rt, 1, found, (LINES, LEN - LINE.len()));
    let found = words_at_many(rt.alloc());
    assert_one_told(&rt, 2, found, (1_001, 1_000 * LINE.len()));
}

#[test]
fn a_large_paragraph_has_lines_in_steps(rt: HostRuntime) {
    let (told, tenth) = lines_in_steps(rt.alloc()).expect(&rt, "room");
    assert_holds(&rt, 0, told == (DONE, LINES, 0));
    assert_holds(&rt, 1, tenth == (9 * LINE.len(), LINE.len()));
}

/// The status, how many offsets are told, and the one at a place among so many.
fn offset_at(alloc: Global, call: OffsetsCall<'_>, most: usize, at: usize) -> OneTold {
    let mut offsets = vec![in alloc; 0; most]?;
    let mut count = BEFORE;
    let status = write_offsets(alloc, call, &mut offsets, &mut count);
    let offset = match offsets.get(at) {
        Some(offset) => *offset,
        None => BEFORE,
    };
    Ok(((status, count), offset))
}

/// The points of a word of so many hyphens.
fn many_points(alloc: Global) -> OneTold {
    let hyphens = "a-".repeat(alloc, LINES)?;
    let call = OffsetsCall::SplitPoints(hyphens.as_bytes());
    offset_at(alloc, call, LINES, 9)
}

/// The cuts of a line of 5,000 bytes, between each two of its characters.
fn many_cuts(alloc: Global) -> OneTold {
    let line = "é日".repeat(alloc, 1_000)?;
    offset_at(alloc, OffsetsCall::UnicodeCuts(line.as_bytes()), 1_999, 9)
}

/// The last width of so many columns that share a total, in which the lines stand.
fn many_widths(alloc: Global, columns: usize, total: usize) -> OneTold {
    let cells = vec![in alloc; TEXT; LINES]?;
    let call = OffsetsCall::FittingWidths(&cells, columns, total);
    offset_at(alloc, call, columns, columns.saturating_sub(1))
}

/// Fragments of width 1, and lines of 10 of them.
const ONE: TextwrapFragment = TextwrapFragment {
    width: 1,
    whitespace_width: 0,
    penalty_width: 0,
    break_penalty: 0,
};

/// The last end of lines of many fragments, by least cost or by first fit.
fn many_ends(alloc: Global, is_optimal: bool) -> OneTold {
    let fragments = vec![in alloc; ONE; 100_000]?;
    let call = match is_optimal {
        true => OffsetsCall::OptimalFit(&fragments, &[10], PENALTIES),
        false => OffsetsCall::FirstFit(&fragments, &[10]),
    };
    offset_at(alloc, call, 10_000, 9_999)
}

#[test]
fn many_points_cuts_and_ends_are_found(rt: HostRuntime) {
    assert_one_told(&rt, 0, many_points(rt.alloc()), (LINES - 1, 20));
    assert_one_told(&rt, 1, many_cuts(rt.alloc()), (1_999, 25));
    assert_one_told(&rt, 2, many_ends(rt.alloc(), false), (10_000, 100_000));
    assert_one_told(&rt, 3, many_ends(rt.alloc(), true), (10_000, 100_000));
}

#[test]
fn many_columns_and_many_rows_have_widths(rt: HostRuntime) {
    assert_one_told(&rt, 0, many_widths(rt.alloc(), 2, 25), (2, 12));
    assert_one_told(&rt, 1, many_widths(rt.alloc(), LINES, LEN), (LINES, 12));
}
