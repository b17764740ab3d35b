//! Notes that are kept in memory.
ghost use Rattle.std.specs.Prelude.{◌≡◌, map, string_bytes, OnOk, OnErr};
ghost use Rattle.textwrap.specs.Blanks.{without_final_blanks};
ghost use Rattle.textwrap.specs.InPlace.{OnlyBlanksChange};
ghost use Rattle.textwrap.specs.Laws.{unbroken_at};
ghost use Rattle.textwrap.specs.LineEnding.{paragraphs_of};
ghost use Rattle.textwrap.specs.Paragraph.{DividesAs, Slice};
ghost use Rattle.textwrap.specs.Text.{AreTextLines};
ghost use Rattle.textwrap.specs.WordSplitters.{Whole};
ghost use Rattle.textwrap.specs.WrapAlgorithms.{ByFirstFit};
ghost use Rattle.textwrap.specs.declared.LineEnding.TheVariants.{LF};

use std::alloc::{AllocError, Global};
use textwrap::fill_inplace;
use textwrap::laws::filled_in_place_is_wrapped;

/// Fills a note in its own place, with lines of so many columns: at 9, `milk and bread` becomes
/// `milk and` and `bread`.
pub fn fill_note(alloc: Global, note: &mut String, width: usize) -> Result<(), AllocError>
    // Without the blanks at their ends, the new lines are those that `wrap` gives of the old note by
    // first fit, with words kept whole.
    ensures wrapped { OnOk result (AreTextLines (unbroken_at width)
        (DividesAs Whole ByFirstFit (unbroken_at width)) (string_bytes note.old)
        (map (λ line. Slice (without_final_blanks line))
        (paragraphs_of LF (string_bytes note.new)))) }
    ensures only_blanks { OnlyBlanksChange (string_bytes note.old) (string_bytes note.new) }
    ensures unchanged { OnErr result (note.new ≡ note.old) }
{
    filled_in_place_is_wrapped();
    fill_inplace(alloc, note, width)
}
