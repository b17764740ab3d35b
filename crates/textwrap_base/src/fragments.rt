//! Items that are placed on lines.
ghost use Rattle.std.specs.Prelude.{◌≡◌, ℕ};
ghost use Rattle.textwrap_base.specs.Sizes.{Sizes};

use crate::penalties::Penalties;
use std::fmt::Debug;

/// An item that is placed on a line and never cut. It has three widths, in one unit of the
/// implementor's choice, such as columns: for `Word::from("foo ")` these are 3, 1 and 0. And it says
/// what a line costs more that ends with it.
///
/// The widths depend on the value alone, and the break penalty on the value and the penalties, so
/// asking again gives the same.
///
/// An item with the usual break penalty writes this method, and no ghost member for it:
///
/// ```rust
/// fn break_penalty(&self, penalties: &Penalties) -> usize {
///     penalties.usual_break_penalty(self.penalty_width())
/// }
/// ```
///
/// One with a break penalty of its own says so: `ghost own_break_penalty = { λ card _. Some
/// card.keep };` where the method returns `self.keep`.
pub trait Fragment: Debug {
    ghost use Rattle.std.specs.Prelude.{Option, None};
    ghost use Rattle.textwrap_base.specs.Cost.{break_penalty_by};
    ghost use Rattle.textwrap_base.specs.declared.penalties.Penalties.{Penalties};

    ghost sizes: { Self → Sizes };

    // In place of what it usually costs to end a line with the item.
    ghost own_break_penalty: { Self → Penalties → Option ℕ } = { λ _ _. None };

    /// The width of the item itself: 3 for `Word::from("foo ")`.
    fn width(&self) -> usize
        ensures { result ≡ (sizes self.now).width };

    /// The width of the space after it, which counts where another item follows on the line: 1 for
    /// `Word::from("foo ")`.
    fn whitespace_width(&self) -> usize
        ensures { result ≡ (sizes self.now).whitespace };

    /// The width that it adds at the end of a line, as a hyphen does: 1 for a word whose penalty is
    /// `-`.
    fn penalty_width(&self) -> usize
        ensures { result ≡ (sizes self.now).penalty };

    /// What a line costs more that ends with the item, by optimal fit: 0 for `Word::from("foo ")`,
    /// and the `hyphen_penalty` for a word whose penalty is `-`.
    fn break_penalty(&self, penalties: &Penalties) -> usize
        ensures { result ≡ break_penalty_by (own_break_penalty self.now penalties.now)
            penalties.now (sizes self.now) };
}
