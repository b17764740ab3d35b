//! A dictionary of hyphenation.
ghost use Rattle.std.specs.Prelude.{◌≡◌, true};
ghost use Rattle.std.proofs.Props.{props};
ghost use Rattle.textwrap_hyphens.specs.Seal.{is_sealed};
ghost use Rattle.textwrap_hyphens.specs.Numbers.{KeepsLists};

use crate::building::{
    Entries, Minima, exception_entries, pattern_entries, set_minima, write_table,
};
use crate::table::PatternTable;
use std::alloc::{AllocError, Allocator, Global};
use textwrap_dictionaries::errors::ParseError;
use textwrap_dictionaries::parsing::{Reading, read, read_bytes};
use textwrap_patterns::patterns::{Exception, Pattern};

/// A dictionary of hyphenation: patterns, and words with their hyphens as exceptions from them.
#[derive(Debug, Drop)]
pub struct Patterns<A: Allocator = Global> {
    words: Vec<usize, A>,
    in_parts: bool,
    ghost sealed: { is_sealed words.items ≡ true },
    ghost kept: { KeepsLists words.items } by { Prim.hlevel props },
}

impl<A: Allocator + Copy> Patterns<A> {
    ghost use Rattle.std.specs.Prelude.{◌≡◌, IfOk, IsUtf8, map};
    ghost use Rattle.textwrap_hyphens.specs.Hyphenation.{hyphenation_by};
    ghost use Rattle.textwrap_patterns.specs.Listed.{exception_view, listed};
    ghost use Rattle.textwrap_patterns.specs.Listed.{pattern_view};
    ghost use Rattle.textwrap_patterns.specs.Charsets.{charset_of};
    ghost use Rattle.textwrap_dictionaries.specs.Parsing.{parsed, parsed_in, reading_view};
    ghost use Rattle.textwrap_hyphens.specs.Parsed.{IsParsed};
    ghost use Rattle.textwrap_hyphens.specs.Table.{held, held_in, patterns_view};

    /// A dictionary of these patterns and exceptions, in any order. A point has at least `left`
    /// letters before it and `right` behind it, 2 and 3 in American English, for which apostrophes
    /// and combining marks do not count; but those of an exception may have fewer. Of exceptions
    /// with the same letters the first counts. A word with a hyphen has no points.
    ///
    /// # Errors
    /// [`AllocError`] where memory runs out.
    pub fn new(
        alloc: A,
        patterns: Vec<Pattern<A>, A>,
        exceptions: Vec<Exception<A>, A>,
        left: usize,
        right: usize,
    ) -> Result<Patterns<A>, AllocError>
        ensures { IfOk result (λ made. patterns_view made ≡ hyphenation_by (listed
            (map pattern_view patterns.items) (map exception_view exceptions.items) left right)) }
    {
        let reading = Reading {
            joints: Vec::new(alloc),
            patterns,
            exceptions,
            left,
            right,
            compound_left: 0,
            compound_right: 0,
            changed: 0,
        };
        Patterns::listed(alloc, reading)
    }

    /// A dictionary of all that is listed. Where it has patterns of joints, a word has a point where
    /// these give an odd level, and each part between such places is hyphenated for itself by the
    /// other patterns: between dots, with at least `compound_left` letters between the joint before it
    /// and a point, and `compound_right` between a point and the joint behind it. An exception is one
    /// of a whole word.
    ///
    /// # Errors
    /// [`AllocError`] where memory runs out.
    pub fn listed(alloc: A, reading: Reading<A>) -> Result<Patterns<A>, AllocError>
        ensures { IfOk result (λ made. patterns_view made ≡ hyphenation_by (reading_view reading)) }
    {
        let listed = Entries {
            joints: pattern_entries(alloc, reading.joints)?,
            patterns: pattern_entries(alloc, reading.patterns)?,
            exceptions: exception_entries(alloc, reading.exceptions)?,
            changed: reading.changed,
        };
        let minima = Minima {
            left: reading.left,
            right: reading.right,
            compound_left: reading.compound_left,
            compound_right: reading.compound_right,
        };
        let words = write_table(alloc, listed, minima)?;
        Ok(Patterns {
            words,
            in_parts: false,
        })
    }

    /// The dictionary that a text says. It has one of three forms, told by its first line:
    ///
    /// - A text of TeX begins with `%` or a backslash. Patterns stand in `\patterns{ .. }` and
    ///   exceptions in `\hyphenation{ .. }`, between blanks. Whatever else stands outside of these
    ///   groups is skipped. A comment goes from `%` to the end of its line.
    /// - A dictionary of libhyphen has the name of a charset in the first line, in any case and
    ///   form, and what follows is a list. The text is UTF-8, whatever is named there.
    /// - Any other text is a list of patterns and exceptions, mostly one a line, with blanks between
    ///   those of one line. A word with a hyphen and no digit is an exception, any other a pattern.
    ///   `LEFTHYPHENMIN` and `RIGHTHYPHENMIN` with a number say how many letters stay before a point
    ///   and behind it. Lines that begin with `%` or `#` are comments.
    ///
    /// In the header of TeX `left:` and `right:` say these numbers, in comments behind one of
    /// `typesetting:`. Where a text does not say it, a point has at least 2 letters before it, and
    /// behind it 2 if the first line names a charset, else 3. A mark U+FEFF in front is left out.
    ///
    /// Patterns before `NEXTLEVEL` are those of the joints of compounds. `COMPOUNDLEFTHYPHENMIN` and
    /// `COMPOUNDRIGHTHYPHENMIN` say how many letters stay between a joint and a point behind it or
    /// before it, 0 without them. `NOHYPHEN` may name hyphens and apostrophes, as no point is beside
    /// these in any case.
    ///
    /// ```text
    /// UTF-8
    /// LEFTHYPHENMIN 2
    /// hy3ph
    /// he2n
    /// ta-ble
    /// ```
    ///
    /// # Errors
    /// [`ParseError`]: memory runs out, or what is wrong in the first line that is wrong. Nothing
    /// of such a text is kept.
    pub fn parse(alloc: A, text: &str) -> Result<Patterns<A>, ParseError>
        ensures { IsParsed (parsed text.now) result }
    {
        let reading = read(alloc, text)?;
        Ok(Patterns::listed(alloc, reading)?)
    }

    /// The dictionary that bytes say: those of UTF-8 as [`Patterns::parse`] has it, whatever
    /// charset their first line names. Others are read in that charset: ISO 8859-1, 2, 4, 5, 7, 13
    /// or 15, KOI8-R, KOI8-U or CP1251.
    ///
    /// # Errors
    /// [`ParseError`], as of [`Patterns::parse`]; a charset that is not known is wrong in line 1.
    pub fn parse_bytes(alloc: A, bytes: &[u8]) -> Result<Patterns<A>, ParseError>
        ensures text { IsUtf8 bytes.now → IsParsed (parsed bytes.now) result }
        ensures charset { ¬ IsUtf8 bytes.now
            → IsParsed (parsed_in (charset_of bytes.now) bytes.now) result }
    {
        let reading = read_bytes(alloc, bytes)?;
        Ok(Patterns::listed(alloc, reading)?)
    }

    /// The same dictionary, where a point has at least `left` letters before it and `right` behind
    /// it, whatever its text said. The call always succeeds.
    pub fn minima(mut self, left: usize, right: usize) -> Patterns<A>
        ensures { patterns_view result
            ≡ record (patterns_view self) { left = left; right = right } }
    {
        set_minima(&mut self.words, left, right);
        self
    }

    /// The same dictionary, where the parts of a word with hyphens are hyphenated too, or not.
    pub fn in_parts(mut self, in_parts: bool) -> Patterns<A>
        ensures { patterns_view result ≡ record (patterns_view self) { in_parts = in_parts } }
    {
        self.in_parts = in_parts;
        self
    }

    /// The dictionary, as points are found by it. The call always succeeds.
    pub fn table(&self) -> PatternTable<'_>
        ensures { held result ≡ patterns_view self.now }
    {
        PatternTable::of_unchecked(&self.words, self.in_parts)
    }

    /// The numbers of the dictionary, from which [`PatternTable::of`] makes it again. The call always
    /// succeeds.
    pub fn words(&self) -> &[usize]
        ensures held { patterns_view self.now ≡ held_in result.now (patterns_view self.now).in_parts }
        ensures sealed { is_sealed result.now ≡ true }
    {
        &self.words
    }
}
