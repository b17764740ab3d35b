//! Cards that are laid out in rows, each with a break penalty of its own.
ghost use Rattle.textwrap_vectors.specs.Cards.{card_sizes};

use textwrap::words::Fragment;
use textwrap::wrap_algorithms::Penalties;

/// A card of a deck that is laid out in rows by optimal fit. What it costs to end a row with it is
/// its own: so a card can be kept with the one after it.
///
/// In rows of 9, three cards of the width 4 with a space of 1 after each make rows of 2 and 1, where
/// ending a row costs nothing at any of them. Where it costs 30 at the second, they make rows of 1
/// and 2.
#[derive(Clone, Copy, Debug, PartialEq, Eq)]
pub struct Card {
    /// The width of the card.
    pub width: usize,
    /// The space between it and the next card of its row.
    pub whitespace: usize,
    /// What it adds to the width of a row that ends with it.
    pub penalty: usize,
    /// What a row costs more that ends with it, whatever the penalties.
    pub keep: usize,
}

impl Fragment for Card {
    ghost use Rattle.std.specs.Prelude.{Some};

    ghost sizes = { card_sizes };

    ghost own_break_penalty = { λ card _. Some card.keep };

    fn width(&self) -> usize {
        self.width
    }

    fn whitespace_width(&self) -> usize {
        self.whitespace
    }

    fn penalty_width(&self) -> usize {
        self.penalty
    }

    fn break_penalty(&self, _penalties: &Penalties) -> usize {
        self.keep
    }
}
