//! A paragraph that is laid out by first fit while its words are read: no more is kept of it than the
//! line that takes the next piece, and what is read of that piece.
ghost use Rattle.std.specs.Prelude.{◌≡◌, ◌++◌, [], ◌∷◌, List, ℕ, Bool, None, Some, length, map, OnOk};
ghost use Rattle.std.specs.Prelude.{if◌then◌else◌, string_bytes};
ghost use Rattle.textwrap_base.specs.Division.{IsGreedy};
ghost use Rattle.textwrap_words.specs.Words.{WordText, sizes_of, word_of};
ghost use Rattle.textwrap_marks.specs.Words.{spaced_words};
ghost use Rattle.textwrap_marked.specs.FirstFit.{columns_with, fresh_line, has_no_room, left, left_of_pieces};
ghost use Rattle.textwrap_marked.specs.FirstFit.{fitting_view, shown_line, with_piece_of};
ghost use Rattle.textwrap_marked_lines.specs.Lines.{marked_line_view};
ghost use Rattle.textwrap_marked.specs.Pieces.{pieces, words_of_lines};
ghost use Rattle.textwrap_marked.specs.Reflow.{first_room, later_room, printed, shown_lines};

use crate::filling::room_behind;
use crate::pieces::is_cut_behind;
use std::alloc::{AllocError, Global};
use textwrap_display::justify;
use textwrap_marked_lines::lines::MarkedLine;
use textwrap_marks::options::ReflowOptions;
use textwrap_marks::words::SpacedWords;
use textwrap_text::blanks::split_final_blanks;
use textwrap_words::words::display_width;

/// What the lines of a paragraph have in common.
#[derive(Drop)]
struct ParagraphForm<'a> {
    options: &'a ReflowOptions<'a>,
    starred: bool,
    ending: &'a str,
    /// What each line but the first begins with.
    hanging: &'a str,
    /// What that leaves of the width.
    room: usize,
}

/// The line that takes the next piece.
#[derive(Drop)]
struct FittingLine {
    /// Its pieces, without the final blanks of the last one.
    text: String,
    /// Those blanks.
    blanks: String,
    /// The columns of the text, if there is a piece.
    columns: Option<usize>,
    /// How many columns it may have.
    room: usize,
}

impl FittingLine {
    /// The columns with one more piece, of which the word has so many, if there is room for it.
    fn columns_with(&self, width: usize) -> Option<usize>
        ensures { result ≡ (if has_no_room (fitting_view self.now) width then None
            else Some (columns_with (fitting_view self.now) width)) }
    {
        match self.columns {
            Some(columns) => {
                let all = columns as u128 + self.blanks.len() as u128 + width as u128;
                if all <= self.room as u128 {
                    Some(all as usize)
                } else {
                    None
                }
            }
            None => Some(width),
        }
    }

    /// Takes a piece, with which it has so many columns.
    fn push(&mut self, word: &str, blanks: &str, columns: usize) -> Result<(), AllocError>
        ensures { OnOk result (fitting_view self.new
            ≡ with_piece_of (fitting_view self.old) word.now blanks.now columns) }
    {
        self.text.push_str(&self.blanks)?;
        self.text.push_str(word)?;
        self.blanks.clear();
        self.blanks.push_str(blanks)?;
        self.columns = Some(columns);
        Ok(())
    }

    /// Ends it, as one that another follows, and begins that.
    fn begin_next(
        &mut self,
        alloc: Global,
        output: &mut String,
        form: &ParagraphForm<'_>,
    ) -> Result<(), AllocError>
        ensures written { OnOk result (string_bytes output.new ≡ string_bytes output.old
            ++ shown_line form.now.options.now.justify (fitting_view self.old)
            ++ form.now.ending.now ++ form.now.hanging.now) }
        ensures fresh { OnOk result (fitting_view self.new ≡ fresh_line form.now.room) }
    {
        if form.options.justify {
            let text = justify(alloc, &self.text, self.room)?;
            output.push_str(&text)?;
        } else {
            output.push_str(&self.text)?;
        }
        output.push_str(form.ending)?;
        output.push_str(form.hanging)?;
        self.text.clear();
        self.blanks.clear();
        self.columns = None;
        self.room = form.room;
        Ok(())
    }

    /// Takes a piece, if it has room for it: else the next line does.
    fn take(
        &mut self,
        alloc: Global,
        output: &mut String,
        piece: &str,
        form: &ParagraphForm<'_>,
    ) -> Result<(), AllocError>
        ensures { OnOk result ((pieces : List (List ℕ)) → string_bytes output.new
            ++ left_of_pieces form.now (fitting_view self.new) pieces
            ≡ string_bytes output.old
            ++ left_of_pieces form.now (fitting_view self.old) (piece.now ∷ pieces)) }
    {
        let (word, blanks) = split_final_blanks(piece);
        let width = display_width(word);
        let Some(columns) = self.columns_with(width) else {
            self.begin_next(alloc, output, form)?;
            return self.push(word, blanks, width);
        };
        self.push(word, blanks, columns)
    }
}

/// A paragraph of which words are read.
#[derive(Drop)]
struct OpenParagraph<'t> {
    line: FittingLine,
    /// What is read of the next piece: words that keep together, with a blank behind each.
    piece: String,
    /// The last word: the one after it tells whether the piece ends behind it.
    last: Option<&'t str>,
}

impl<'t> OpenParagraph<'t> {
    /// Reads a word.
    fn push(
        &mut self,
        alloc: Global,
        output: &mut String,
        word: &'t str,
        form: &ParagraphForm<'_>,
    ) -> Result<(), AllocError>
        ensures { OnOk result ((words : List (List ℕ)) → string_bytes output.new
            ++ left form.now self.new words
            ≡ string_bytes output.old ++ left form.now self.old (word.now ∷ words)) }
    {
        if is_cut_behind(form.options, form.starred, self.last, word) {
            self.line.take(alloc, output, &self.piece, form)?;
            self.piece.clear();
        }
        self.piece.push_str(word)?;
        self.piece.push_str(" ")?;
        self.last = Some(word);
        Ok(())
    }

    /// Reads the words of a text.
    fn push_words(
        &mut self,
        alloc: Global,
        output: &mut String,
        line: &'t str,
        form: &ParagraphForm<'_>,
    ) -> Result<(), AllocError>
        ensures { OnOk result ((words : List (List ℕ)) → string_bytes output.new
            ++ left form.now self.new words
            ≡ string_bytes output.old ++ left form.now self.old
            (map (λ w. w.word) (spaced_words line.now) ++ words)) }
    {
        for word in SpacedWords::of(line) {
            self.push(alloc, output, word.word, form)?;
        }
        Ok(())
    }

    /// All words are read: the last piece ends, and so does the last line, which is never justified.
    fn push_end(
        &mut self,
        alloc: Global,
        output: &mut String,
        form: &ParagraphForm<'_>,
    ) -> Result<(), AllocError>
        ensures { OnOk result (string_bytes output.new
            ≡ string_bytes output.old ++ left form.now self.old []) }
    {
        if self.last.is_some() {
            self.line.take(alloc, output, &self.piece, form)?;
        }
        output.push_str(&self.line.text)?;
        Ok(())
    }
}

/// Adds the lines of a paragraph, of which this is the first, by first fit.
pub(crate) fn push_by_first_fit(
    alloc: Global,
    output: &mut String,
    first: &MarkedLine<'_>,
    lines: &[MarkedLine<'_>],
    ending: &str,
    options: &ReflowOptions<'_>,
) -> Result<(), AllocError>
    ensures { OnOk result ((division : List (List WordText))
        × IsGreedy sizes_of (first_room options.now (marked_line_view first.now)
        ∷ later_room options.now (marked_line_view first.now) ∷ [])
        (map word_of (pieces options.now first.now.starred
        (words_of_lines (map marked_line_view lines.now)))) division
        × (string_bytes output.new ≡ string_bytes output.old
        ++ printed ending.now first.now.prefix.now (string_bytes first.now.hanging)
        (shown_lines options.now (marked_line_view first.now) division))) }
{
    let prefix = first.prefix;
    let hanging = first.hanging.as_str();
    let form = ParagraphForm {
        options,
        starred: first.starred,
        ending,
        hanging,
        room: room_behind(hanging, options),
    };
    let mut paragraph = OpenParagraph {
        line: FittingLine {
            text: String::new(alloc),
            blanks: String::new(alloc),
            columns: None,
            room: room_behind(prefix, options),
        },
        piece: String::new(alloc),
        last: None,
    };
    output.push_str(prefix)?;
    for line in lines {
        paragraph.push_words(alloc, output, line.text, &form)?;
    }
    paragraph.push_end(alloc, output, &form)
}
