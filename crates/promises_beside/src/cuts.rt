//! Where a line may end.
ghost use Rattle.std.specs.Prelude.{◌≡◌, IfOk};
ghost use Rattle.textwrap_unicode.specs.Cuts.{unicode_cuts};

use std::alloc::{AllocError, Global};
use textwrap_unicode::unicode_cuts;

/// As `unicode_cuts`.
pub fn cuts_of_line(alloc: Global, line: &str) -> Result<Vec<usize>, AllocError>
    ensures cuts { IfOk result (λ cuts. cuts.items ≡ unicode_cuts line.now) }
{
    let cuts = unicode_cuts(alloc, line)?;
    Ok(cuts)
}
