//! How the program fills a text.
ghost use Rattle.std.specs.Prelude.{IfOk, string_bytes};
ghost use Rattle.textwrap_layout.specs.Filling.{IsFilledAt};
ghost use Rattle.textwrap_program.specs.Arguments.{asked_algorithm};
ghost use Rattle.filter_programs.specs.FillFilling.{filling};

use std::alloc::{AllocError, Global};
use text_filters::filter::{Filter, Made};
use textwrap_lines::{Options, fill};
use textwrap_program::arguments::Algorithm;
use textwrap_words::wrap_algorithms::{Penalties, WrapAlgorithm};

/// How a text is filled. Each of its lines is a paragraph.
#[derive(Clone, Copy, Debug, PartialEq, Eq)]
pub struct Filling {
    /// The columns of a line.
    pub width: usize,
    /// How words are divided into lines.
    pub algorithm: Algorithm,
}

impl Filter for Filling {
    ghost work = { λ how. filling how };

    fn filter(&self, alloc: Global, text: &str) -> Result<Made, AllocError> {
        let text = fill_text(alloc, text, self)?;
        Ok(Made {
            text,
            applies: true,
        })
    }
}

/// The text, with its paragraphs filled.
fn fill_text(alloc: Global, text: &str, how: &Filling) -> Result<String, AllocError>
    ensures { IfOk result (λ filled. IsFilledAt how.now.width (asked_algorithm how.now.algorithm)
        text.now (string_bytes filled)) }
{
    let algorithm = match how.algorithm {
        Algorithm::FirstFit => WrapAlgorithm::FirstFit,
        Algorithm::OptimalFit => WrapAlgorithm::OptimalFit(Penalties::new()),
    };
    let options = Options::new(how.width).wrap_algorithm(algorithm);
    match fill(alloc, text, options) {
        Ok(filled) => Ok(filled),
        Err(_) => Err(AllocError),
    }
}
