//! Rows of calls that write lines, pieces or offsets, and the assertions of them.
use super::plain::{
    BEFORE, BLANK, LinesCall, NO_PIECE, NOWHERE, OffsetsCall, PiecesCall, assert_holds,
    assert_room, assert_told, write_lines, write_offsets, write_pieces,
};
use std::process::Abort;
use textwrap_calls::wrapping::TextwrapLine;
use textwrap_more_calls::pieces::TextwrapPiece;

/// How many lines, pieces or offsets the longest row has.
const MOST: usize = 8;

/// How much room the longest row has.
const MOST_ROOM: usize = 64;

/// A line as a row has it: its offset, its length, and whether it is built.
pub(super) type LinePlace = (usize, usize, usize);

/// A line that was not written.
pub(super) const NONE: LinePlace = (99, 99, 99);

/// A call and a text; the status, how many lines and how much room are told; all lines and the room
/// afterwards.
pub(super) type LinesRow = (
    (LinesCall<'static>, &'static [u8]),
    (u32, usize, usize),
    (&'static [LinePlace], &'static [u8]),
);

/// Asserts what each row says, also of its text where that is known.
pub(super) fn assert_lines(rt: &(impl Abort + AllocGlobal), rows: &[LinesRow]) {
    for is_known in [false, true] {
        assert_lines_where(rt, is_known, rows);
    }
}

/// A status, and calls with their texts that are refused with it.
pub(super) type RefusedLines = (u32, &'static [(LinesCall<'static>, &'static [u8])]);

/// Asserts that these calls are refused, and change nothing.
pub(super) fn assert_no_lines(rt: &(impl Abort + AllocGlobal), refused: &[RefusedLines]) {
    for &(status, calls) in refused {
        for &call in calls {
            assert_lines(rt, &[(call, (status, BEFORE, BEFORE), (&[NONE], b"____"))]);
        }
    }
}

/// What each row says of texts that are all known or not.
fn assert_lines_where(rt: &(impl Abort + AllocGlobal), is_known: bool, rows: &[LinesRow]) {
    let alloc = rt.alloc();
    for (row, &((call, text), (status, count, len), after)) in rows.iter().enumerate() {
        let (places, expected) = after;
        let mut lines = [NOWHERE; MOST];
        let lines = &mut lines[..places.len().min(MOST)];
        let mut room = [BLANK; MOST_ROOM];
        let room = &mut room[..expected.len().min(MOST_ROOM)];
        let (mut found, mut told) = (BEFORE, BEFORE);
        let answer = write_lines(
            alloc, is_known, call, text, lines, &mut found, room, &mut told,
        );
        assert_told(rt, row, (answer, found), (status, count));
        assert_told(rt, row, (answer, told), (status, len));
        assert_holds(rt, row, are_lines(lines, places));
        assert_room(rt, row, room, expected);
    }
}

/// Whether the lines are these.
fn are_lines(lines: &[TextwrapLine], places: &[LinePlace]) -> bool {
    for (line, place) in lines.iter().zip(places) {
        if (line.offset, line.len, line.is_built) != *place {
            return false;
        }
    }
    lines.len() == places.len()
}

/// A piece as a row has it: its offset, its bytes, the blanks after it, its penalty and its columns.
pub(super) type PiecePlace = (usize, usize, usize, usize, usize);

/// A piece that was not written.
pub(super) const NO_PLACE: PiecePlace = (99, 99, 99, 99, 99);

/// A call and a text; the status, and how many pieces are told; all pieces afterwards.
pub(super) type PiecesRow<'a> = ((PiecesCall<'a>, &'a [u8]), (u32, usize), &'a [PiecePlace]);

/// Asserts what each row says.
pub(super) fn assert_pieces(rt: &(impl Abort + AllocGlobal), rows: &[PiecesRow<'_>]) {
    for (row, &((call, text), expected, places)) in rows.iter().enumerate() {
        let mut pieces = [NO_PIECE; MOST];
        let pieces = &mut pieces[..places.len().min(MOST)];
        let mut count = BEFORE;
        let status = write_pieces(rt.alloc(), call, text, pieces, &mut count);
        assert_told(rt, row, (status, count), expected);
        assert_holds(rt, row, are_pieces(pieces, places));
    }
}

/// A status, and calls with their texts that are refused with it.
pub(super) type RefusedPieces = (u32, &'static [(PiecesCall<'static>, &'static [u8])]);

/// Asserts that these calls are refused, and change nothing.
pub(super) fn assert_no_pieces(rt: &(impl Abort + AllocGlobal), refused: &[RefusedPieces]) {
    for &(status, calls) in refused {
        for &call in calls {
            assert_pieces(rt, &[(call, (status, BEFORE), &[NO_PLACE])]);
        }
    }
}

/// Whether the pieces are these.
fn are_pieces(pieces: &[TextwrapPiece], places: &[PiecePlace]) -> bool {
    for (piece, place) in pieces.iter().zip(places) {
        if !is_piece(piece, *place) {
            return false;
        }
    }
    pieces.len() == places.len()
}

/// Whether the piece is this one.
pub(super) fn is_piece(piece: &TextwrapPiece, place: PiecePlace) -> bool {
    let (offset, len, whitespace_len, penalty_len, width) = place;
    piece.offset == offset
        && piece.len == len
        && piece.whitespace_len == whitespace_len
        && piece.penalty_len == penalty_len
        && piece.width == width
}

/// An offset that was not written.
pub(super) const NO_OFFSET: usize = 99;

/// A call; the status, and how many offsets are told; all offsets afterwards.
pub(super) type OffsetsRow = (OffsetsCall<'static>, (u32, usize), &'static [usize]);

/// Asserts what each row says.
pub(super) fn assert_offsets(rt: &(impl Abort + AllocGlobal), rows: &[OffsetsRow]) {
    for (row, &(call, expected, places)) in rows.iter().enumerate() {
        assert_offsets_of(rt, row, call, expected, places);
    }
}

/// Asserts what the row of this number says.
pub(super) fn assert_offsets_of(
    rt: &(impl Abort + AllocGlobal),
    row: usize,
    call: OffsetsCall<'static>,
    expected: (u32, usize),
    places: &'static [usize],
) {
    let mut offsets = [NO_OFFSET; MOST];
    let offsets = &mut offsets[..places.len().min(MOST)];
    let mut count = BEFORE;
    let status = write_offsets(rt.alloc(), call, offsets, &mut count);
    assert_told(rt, row, (status, count), expected);
    assert_holds(rt, row, &*offsets == places);
}
