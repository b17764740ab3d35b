//! What changes from one text to another.
ghost use Rattle.std.specs.Prelude.{IfOk};
ghost use Rattle.text_files.specs.Differences.{IsDiffText};

use std::alloc::{AllocError, Global};
use text_files::differences::diff_text;

/// As `diff_text`.
pub fn diff_of_texts(
    alloc: Global,
    name: &str,
    old: &[u8],
    new: &[u8],
) -> Result<Vec<u8>, AllocError>
    ensures { IfOk result (λ text. IsDiffText name.now old.now new.now text.items) }
{
    let text = diff_text(alloc, name, old, new)?;
    Ok(text)
}
