//! Whether a text is filled already, as a formatter asks.
ghost use Rattle.std.specs.Prelude.{IfOk, IsTrue, IsFalse};
ghost use Rattle.textwrap.specs.Filling.{IsFilledAt};
ghost use Rattle.textwrap.specs.Options.{default_algorithm};

use std::alloc::Global;
use textwrap::laws::lines_are_unique;
use textwrap::{Options, WrapError, fill};

/// Whether a text is filled already at this width.
pub fn is_filled(alloc: Global, text: &str, width: usize) -> Result<bool, WrapError>
    ensures yes { IfOk result (λ yes. IsTrue yes
        → IsFilledAt width default_algorithm text.now text.now) }
    ensures no { IfOk result (λ yes. IsFalse yes
        → ¬ IsFilledAt width default_algorithm text.now text.now) }
{
    lines_are_unique();
    let filled = fill(alloc, text, Options::new(width))?;
    Ok(filled.as_str() == text)
}
