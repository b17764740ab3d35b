//! Where a text is cut into words, also told from the bytes of a printable one.
ghost use Rattle.std.specs.Prelude.{◌≡◌, ◌<◌, ℕ, Bool, IfOk, IsOkAnd, IsTrue, List, None, length};
ghost use Rattle.std.specs.Prelude.{map};
ghost use Rattle.std.specs.Option.{option_map};
ghost use Rattle.std.specs.Str.{IsUtf8};
ghost use Rattle.textwrap_words.specs.PieceCuts.{parts_by};
ghost use Rattle.textwrap_text.specs.Units.{IsPrintable};
ghost use Rattle.textwrap_words.specs.Words.{WordText, word_of};
ghost use Rattle.textwrap_layout.specs.Direct.{AreWordsCut, CanBeCut, words_cut};
ghost use Rattle.textwrap_layout.specs.Printable.{AfterOthers, BeforeOthers};

use std::alloc::AllocError;

/// Where texts are cut into words, also told from the bytes of printable ones.
pub trait PrintableCuts {
    // The words of a text.
    ghost words: { Self → List ℕ → List WordText };

    // Whether words stand between blanks, of whatever text.
    ghost at_blanks: { Self → Type 0 };

    // Whether the words of a text are cut at a place.
    ghost cuts: { Self → List ℕ → ℕ → Bool };

    /// Whether the words of a printable text are cut at a place inside it.
    fn is_cut(&self, text: &[u8], place: usize) -> bool
        requires printable { IsPrintable text.now }
        requires after_start { 0 < place }
        requires inside { place < length text.now }
        ensures { result ≡ cuts self.now text.now place };

    /// Whether the words of each printable text are its parts between these places.
    fn are_told(&self) -> bool
        ensures { IsTrue result → (text : List ℕ) → IsPrintable text
            → words self.now text ≡ map word_of (parts_by (cuts self.now text) 0 text) };

    /// Where the words of a text end but the last, or `None` where they stand between its blanks.
    ///
    /// # Errors
    /// [`AllocError`] where memory runs out.
    fn word_cuts(&self, text: &str) -> Result<Option<Vec<usize>>, AllocError>
        ensures words { IfOk result (λ found. words_cut (option_map (λ cuts. cuts.items) found)
            text.now ≡ words self.now text.now) }
        ensures cuts { IfOk result (λ found. CanBeCut (option_map (λ cuts. cuts.items) found)
            text.now) }
        ensures direct { at_blanks self.now → IsOkAnd result (λ found. found ≡ None) };

    // The words of each text are cut somewhere, or at its blanks.
    ghost are_cut: { (cuts : Self) (text : List ℕ) → IsUtf8 text
        → AreWordsCut text (words cuts text) };

    // Blanks stay with the word before them.
    ghost before_others: { (words : Self) (text : List ℕ) → IsPrintable text
        → BeforeOthers (cuts words text) text };

    // So a hyphen between letters or digits has them in its own word.
    ghost after_others: { (words : Self) (text : List ℕ) → IsPrintable text
        → AfterOthers (cuts words text) text };
}

/// Words between blanks.
#[derive(Clone, Copy)]
pub struct BlankCuts {}

impl PrintableCuts for BlankCuts {
    ghost use Rattle.std.specs.Prelude.{◌-◌, None, slice_index, ⊤};
    ghost use Rattle.std.proofs.Common.{refl};
    ghost use Rattle.std.specs.Char.{is_ascii_alphanumeric};
    ghost use Rattle.std.proofs.Common.{ap};
    ghost use Rattle.std.proofs.lemmas.Bool.{and_parts, eqb-true, not-true};
    ghost use Rattle.textwrap_text.specs.Blanks.{is_blank};
    ghost use Rattle.textwrap_words.specs.Words.{is_cut, words_of};

    ghost words = { λ words. words_of };

    ghost at_blanks = { λ words. ⊤ };

    ghost cuts = { λ words text place. is_cut (slice_index text (place - 1)) (slice_index text place) };

    ghost are_cut = { λ words text utf8. (None, tt, refl) };

    ghost before_others = { λ words text printable place after inside cut.
        not-true _ (and_parts _ _ cut).1 };

    ghost after_others = { λ words text printable place after inside cut.
        ap is_ascii_alphanumeric (eqb-true (slice_index text (place - 1)) 32
        (and_parts (is_blank (slice_index text (place - 1))) _ cut).0) };

    fn is_cut(&self, text: &[u8], place: usize) -> bool {
        text[place - 1] == b' ' && text[place] != b' '
    }

    fn are_told(&self) -> bool {
        true
    }

    fn word_cuts(&self, _text: &str) -> Result<Option<Vec<usize>>, AllocError> {
        Ok(None)
    }
}
