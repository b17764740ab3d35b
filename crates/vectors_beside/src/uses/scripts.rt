//! Scripts that stand indented in the source of a program.
ghost use Rattle.std.specs.Prelude.{◌≡◌, ℕ, List, [], ◌∷◌, ◌++◌, ◌==◌, map, string_bytes, IfOk};
ghost use Rattle.std.specs.Prelude.{if◌then◌else◌};
ghost use Rattle.std.specs.List.{join_with_byte};
ghost use Rattle.std.specs.Str.Lines.{lines};
ghost use Rattle.textwrap.specs.Indentation.{IsMarginOf, without_margin};
ghost use Rattle.textwrap.specs.LineEnding.{line_feed};
ghost use Rattle.textwrap.specs.Lists.{last};

use std::alloc::{AllocError, Global};
use textwrap::dedent;
use textwrap::laws::margins_are_unique;

/// A script without the margin that it has in the source of the program: `"    if x:\n      y\n"`
/// becomes `"if x:\n  y\n"`.
pub fn script(alloc: Global, source: &str) -> Result<String, AllocError>
    // Whatever is a margin of the source, each line lost just that, and one of whitespace alone is
    // empty; a final line feed stays.
    ensures dedented { IfOk result (λ script. (margin : List ℕ) → IsMarginOf source.now margin
        → string_bytes script
        ≡ join_with_byte line_feed (map (without_margin margin) (lines source.now))
        ++ (if last source.now == line_feed then line_feed ∷ [] else [])) }
{
    margins_are_unique();
    let script = dedent(alloc, source)?;
    Ok(script)
}
