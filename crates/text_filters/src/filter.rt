//! What a filter is: a way to make one text of another.
ghost use Rattle.std.specs.Prelude.{◌≡◌, IfOk, string_bytes};
ghost use Rattle.text_filters.specs.Filter.{Work};

use std::alloc::{AllocError, Global};

/// What a filter makes of a text.
#[derive(Drop)]
pub struct Made {
    /// What the text became.
    pub text: String,
    /// Whether there was something in it for the filter.
    pub applies: bool,
}

/// A way to make one text of another.
pub trait Filter {
    /// What a text may become, and in which texts there is something for the filter.
    ghost work: { Self → Work };

    /// What the text becomes.
    ///
    /// # Errors
    /// [`AllocError`] where memory runs out.
    fn filter(&self, alloc: Global, text: &str) -> Result<Made, AllocError>
        ensures text { IfOk result (λ made. (work self.now).Makes text.now (string_bytes made.text)) }
        ensures applies { IfOk result (λ made. made.applies ≡ (work self.now).applies text.now) };
}
