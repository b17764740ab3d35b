//! How the program lays out a text.
ghost use Rattle.std.specs.Prelude.{◌≡◌, IfOk, string_bytes};
ghost use Rattle.filter_programs.specs.ReflowLayout.{LaysOut, has_marks, reflowing};

use std::alloc::{AllocError, Global};
use text_filters::filter::{Filter, Made};
use textwrap_marked::{LineRange, ReflowOptions, has_chosen, reflow, reflow_within};
use textwrap_words::wrap_algorithms::WrapError;

/// How a text is laid out.
#[derive(Clone, Copy)]
pub struct Reflowing<'a> {
    /// How its paragraphs are filled.
    pub options: ReflowOptions<'a>,
    /// The lines at which they are, if these are named.
    pub lines: Option<LineRange>,
}

impl Filter for Reflowing<'_> {
    ghost work = { λ layout. reflowing layout };

    fn filter(&self, alloc: Global, text: &str) -> Result<Made, AllocError> {
        let applies = has_marks(alloc, text, &self.options)?;
        match lay_out(alloc, text, self) {
            Ok(text) => Ok(Made { text, applies }),
            Err(_) => Err(AllocError),
        }
    }
}

/// The text, with its paragraphs filled again.
///
/// # Errors
/// [`WrapError::Memory`] where memory runs out, and no other.
fn lay_out(alloc: Global, text: &str, layout: &Reflowing<'_>) -> Result<String, WrapError>
    ensures { IfOk result (λ output. LaysOut layout.now text.now (string_bytes output)) }
{
    match &layout.lines {
        Some(range) => reflow_within(alloc, text, range, &layout.options),
        None => reflow(alloc, text, &layout.options),
    }
}

/// Whether some line has marks that are filled; each line does, if there are no prefixes.
fn has_marks(alloc: Global, text: &str, options: &ReflowOptions<'_>) -> Result<bool, AllocError>
    ensures { IfOk result (λ has. has ≡ has_marks options.now text.now) }
{
    if options.prefixes.is_empty() {
        return Ok(true);
    }
    has_chosen(alloc, text, options)
}
