//! A text of paragraphs that are filled again.
ghost use Rattle.std.specs.Prelude.{IfOk, string_bytes};
ghost use Rattle.textwrap_marked.specs.Reflow.{IsReflowed};
ghost use Rattle.textwrap_marked.specs.Within.{IsReflowedWithin};

use std::alloc::Global;
use textwrap_base::WrapError;
use textwrap_marked::{LineRange, ReflowOptions, reflow, reflow_within};

/// As `reflow`.
pub fn reflowed_text(
    alloc: Global,
    text: &str,
    options: &ReflowOptions<'_>,
) -> Result<String, WrapError>
    ensures { IfOk result (λ reflowed. IsReflowed options.now text.now (string_bytes reflowed)) }
{
    let reflowed = reflow(alloc, text, options)?;
    Ok(reflowed)
}

/// As `reflow_within`.
pub fn text_reflowed_within(
    alloc: Global,
    text: &str,
    range: &LineRange,
    options: &ReflowOptions<'_>,
) -> Result<String, WrapError>
    ensures reflowed { IfOk result (λ filled.
        IsReflowedWithin options.now range.now text.now (string_bytes filled)) }
{
    let filled = reflow_within(alloc, text, range, options)?;
    Ok(filled)
}
