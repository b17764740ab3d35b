//! Options without functions as `textwrap_lines` takes them: a layout, and parts by which texts are cut
//! into words, split and divided.
ghost use Rattle.std.specs.Prelude.{◌≡◌, MatchOption};
ghost use Rattle.textwrap_plain.specs.Options.{AreDirect, plain_layout};

use crate::options::{PlainOptions, PlainSeparator, PlainSplitter};
use crate::parts::PlainParts;
use std::alloc::{AllocError, Global};
use textwrap_layout::layout::Layout;
use textwrap_layout::parts::BuiltInAlgorithm;
use textwrap_layout::printable_cuts::{BlankCuts, PrintableCuts};
use textwrap_unicode::inner::{is_cut_at_blanks, is_cut_between};
use textwrap_unicode::{Numbers, unicode_cuts, unicode_cuts_by_expression};

/// The words of a separator.
#[derive(Clone, Copy)]
pub struct PlainWords {
    /// Where words end.
    pub separator: PlainSeparator,
    /// What lists of cuts lie in.
    pub alloc: Global,
}

impl PrintableCuts for PlainWords {
    ghost use Rattle.textwrap_plain.specs.Options.{is_cut_plainly, words_by};
    ghost use Rattle.textwrap_plain.specs.CutSides.{cuts-after_others, cuts-before_others};
    ghost use Rattle.textwrap_plain.specs.CutSides.{words_by-cut};
    ghost use Rattle.textwrap_plain.specs.declared.options.PlainSeparator.TheVariants.{AtBlanks};

    ghost words = { λ words. words_by words.separator };

    ghost at_blanks = { λ words. words.separator ≡ AtBlanks };

    ghost cuts = { λ words. is_cut_plainly words.separator };

    ghost are_cut = { λ words. words_by-cut words.separator };

    ghost before_others = { λ words. cuts-before_others words.separator };

    ghost after_others = { λ words. cuts-after_others words.separator };

    fn is_cut(&self, text: &[u8], place: usize) -> bool {
        match self.separator {
            PlainSeparator::AtBlanks => text[place - 1] == b' ' && text[place] != b' ',
            PlainSeparator::AtBreaks(Numbers::ByPairs) => is_cut_between(text, place),
            PlainSeparator::AtBreaks(Numbers::ByExpression) => false,
        }
    }

    fn are_told(&self) -> bool {
        // By the expression of numbers a cut depends on digits far before it.
        match self.separator {
            PlainSeparator::AtBlanks => true,
            PlainSeparator::AtBreaks(Numbers::ByPairs) => true,
            PlainSeparator::AtBreaks(Numbers::ByExpression) => false,
        }
    }

    fn word_cuts(&self, text: &str) -> Result<Option<Vec<usize>>, AllocError> {
        match self.separator {
            PlainSeparator::AtBlanks => Ok(None),
            PlainSeparator::AtBreaks(Numbers::ByPairs) => {
                if is_cut_at_blanks(text) {
                    return Ok(None);
                }
                Ok(Some(unicode_cuts(self.alloc, text)?))
            }
            PlainSeparator::AtBreaks(Numbers::ByExpression) => {
                Ok(Some(unicode_cuts_by_expression(self.alloc, text)?))
            }
        }
    }
}

impl<'a> PlainOptions<'a> {
    /// What they say, but for the separator, the splitter and the algorithm.
    pub fn layout(&self) -> Layout<'a>
        ensures { result ≡ plain_layout self.now }
    {
        Layout {
            room_for_hyphens: matches!(self.word_splitter, PlainSplitter::Dictionary(_)),
            ..self.layout
        }
    }

    /// Their separator, splitter and algorithm, as `textwrap_lines` takes them.
    pub fn parts(&self, alloc: Global) -> PlainParts<'a, PlainWords>
        ensures words { result.words.separator ≡ self.now.word_separator }
        ensures splitter { result.splitter ≡ self.now.word_splitter }
        ensures algorithm { result.algorithm ≡ self.now.wrap_algorithm }
    {
        PlainParts {
            words: PlainWords {
                separator: self.word_separator,
                alloc,
            },
            splitter: self.word_splitter,
            algorithm: self.wrap_algorithm,
        }
    }

    /// The same, if they are first fit of words between blanks that no dictionary splits. Then a text is
    /// filled without a list, and its loops ask of no byte which separator it is.
    pub(crate) fn direct_parts(&self) -> Option<PlainParts<'a, BlankCuts>>
        ensures { MatchOption result (¬ AreDirect self.now) (λ parts. AreDirect self.now
            × (parts.splitter ≡ self.now.word_splitter)
            × (parts.algorithm ≡ BuiltInAlgorithm.FirstFit)) }
    {
        match (self.word_separator, self.word_splitter, self.wrap_algorithm) {
            (PlainSeparator::AtBlanks, PlainSplitter::BuiltIn(_), BuiltInAlgorithm::FirstFit) => {
                Some(PlainParts {
                    words: BlankCuts {},
                    splitter: self.word_splitter,
                    algorithm: BuiltInAlgorithm::FirstFit,
                })
            }
            _ => None,
        }
    }
}
