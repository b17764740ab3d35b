//! How words are divided into lines, and the division of any fragments. At the line width 10, the
//! words of `foo bar baz` make two lines, `foo bar` and `baz`.
ghost use Rattle.std.specs.Prelude.{◌≡◌, map, IfOk, OnOk, IsSomeAnd};
ghost use Rattle.std.specs.Option.{ForSome};
ghost use Rattle.textwrap_base.specs.Penalties.{default_penalties};
ghost use Rattle.textwrap_base.specs.Cost.{total_width};
ghost use Rattle.textwrap_base.specs.Errors.{Fits64Bits, Overflowed, Passes128Bits};

use crate::words::Word;
use at_ends::wrap_at_ends;
pub use line_ends::{EndsFunction, LineEnds};
use std::alloc::Allocator;
pub use textwrap_base::{
    OverflowError, Penalties, WrapError, wrap_first_fit, wrap_optimal_fit, wrap_optimal_fit_counted,
};

pub(crate) mod at_ends;
mod line_ends;

/// How fragments are divided into lines. At 10 columns `To be, or not to be: that is the question`
/// has by first fit the first line `To be, or`, and by optimal fit `To be,`.
#[derive(Clone, Copy, Debug)]
pub enum WrapAlgorithm {
    /// Each line takes fragments while they fit, as `wrap_first_fit` does.
    FirstFit,
    /// The lines are those of least cost at these penalties, as `wrap_optimal_fit` finds them.
    OptimalFit(Penalties),
    /// The lines end where a function of the caller says.
    Custom(LineEnds),
}

impl WrapAlgorithm {
    /// Optimal fit with the default penalties: `WrapAlgorithm::OptimalFit(Penalties::new())`.
    pub fn new() -> Self
        ensures { result ≡ WrapAlgorithm.OptimalFit default_penalties }
    {
        WrapAlgorithm::new_optimal_fit()
    }

    /// Optimal fit with the default penalties, the same as `WrapAlgorithm::new()`.
    pub fn new_optimal_fit() -> Self
        ensures { result ≡ WrapAlgorithm.OptimalFit default_penalties }
    {
        WrapAlgorithm::OptimalFit(Penalties::new())
    }

    ghost use Rattle.textwrap_words.specs.WrapAlgorithms.{algorithm_view, MayDivide, OverflowsBy};
    ghost use Rattle.textwrap_words.specs.Words.{sizes_of, word_view};

    /// Divides the words into lines by this algorithm: at the line width 10, `WrapAlgorithm::new()`
    /// divides those of `foo bar baz` into a line of two words and one of one.
    ///
    /// # Errors
    /// Those of `wrap_first_fit` or of `wrap_optimal_fit`. With a function of the caller, out of
    /// memory only, also where the function says so.
    pub fn wrap<'a, 'b, A: Allocator + Copy>(
        &self,
        alloc: A,
        words: &'b [Word<'a>],
        line_widths: &[usize],
    ) -> Result<Vec<&'b [Word<'a>], A>, WrapError>
        ensures divided { IfOk result (λ lines. MayDivide self.now word_view line_widths.now
            words.now (map (λ line. line.now) lines.items)) }
        ensures overflow_only { Overflowed result → IsSomeAnd (algorithm_view self.now) (λ algorithm.
            OverflowsBy algorithm (λ word. sizes_of (word_view word)) line_widths.now words.now) }
        ensures ok_only { OnOk result (ForSome (algorithm_view self.now) (λ algorithm.
            ¬ OverflowsBy algorithm (λ word. sizes_of (word_view word)) line_widths.now words.now)) }
        ensures too_wide { (penalties : _) → self.now ≡ WrapAlgorithm.OptimalFit penalties
            → Passes128Bits (total_width (λ word. sizes_of (word_view word)) words.now)
            → Overflowed result }
        ensures no_overflow { Fits64Bits (total_width (λ word. sizes_of (word_view word)) words.now)
            → ¬ Overflowed result }
    {
        match self {
            WrapAlgorithm::FirstFit => Ok(wrap_first_fit(alloc, words, line_widths)?),
            WrapAlgorithm::OptimalFit(penalties) => {
                wrap_optimal_fit(alloc, words, line_widths, penalties)
            }
            WrapAlgorithm::Custom(line_ends) => {
                Ok(wrap_at_ends(alloc, words, line_widths, *line_ends)?)
            }
        }
    }
}

impl PartialEq for WrapAlgorithm {
    ghost use Rattle.std.proofs.Common.{rules};
    ghost use Rattle.std.specs.Cmp.Rules.{comparing};
    ghost use Rattle.textwrap_words.specs.WrapAlgorithms.{are_equal};

    ghost eq = { are_equal ⟦<Penalties as PartialEq>⟧.eq };

    ghost laws = { Prim.search (comparing, rules) };

    /// Whether both are first fit, or both optimal fit with the same penalties. No function of a
    /// caller is known to be equal to another, or to itself.
    fn eq(&self, other: &WrapAlgorithm) -> bool {
        match self {
            WrapAlgorithm::FirstFit => matches!(other, WrapAlgorithm::FirstFit),
            WrapAlgorithm::OptimalFit(penalties) => match other {
                WrapAlgorithm::OptimalFit(others) => penalties == others,
                _ => false,
            },
            WrapAlgorithm::Custom(_) => false,
        }
    }
}

impl Default for WrapAlgorithm {
    ghost use Rattle.textwrap_words.specs.declared.wrap_algorithms.WrapAlgorithm.TheVariants.{OptimalFit};

    ghost is_default = { λ algorithm. algorithm ≡ OptimalFit default_penalties };

    fn default() -> Self {
        WrapAlgorithm::new()
    }
}
