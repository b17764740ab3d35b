//! Pictures hung in rows: in as few as fit, or divided at the least cost.
ghost use Rattle.std.specs.Prelude.{◌≤◌, List, [], ◌∷◌, length, map, IfOk};
ghost use Rattle.textwrap.specs.Cost.{problem_at, IsChosen};
ghost use Rattle.textwrap.specs.Division.{IsAdmissible};
ghost use Rattle.textwrap.specs.Penalties.{default_penalties};

use std::alloc::{AllocError, Global};
use textwrap::WrapError;
use textwrap::words::Fragment;
use textwrap::wrap_algorithms::{Penalties, wrap_first_fit, wrap_optimal_fit};

/// A picture on a wall.
#[derive(Clone, Copy, Debug)]
pub struct Picture {
    /// Its width in centimetres.
    pub width: usize,
    /// The centimetres of wall that are left free between it and the next picture of its row.
    pub margin: usize,
}

impl Fragment for Picture {
    ghost sizes = { λ picture. record {
      width = picture.width;
      whitespace = picture.margin;
      penalty = 0;
    } };

    fn width(&self) -> usize {
        self.width
    }

    fn whitespace_width(&self) -> usize {
        self.margin
    }

    fn penalty_width(&self) -> usize {
        0
    }

    fn break_penalty(&self, penalties: &Penalties) -> usize {
        penalties.usual_break_penalty(self.penalty_width())
    }
}

/// The pictures in rows for a wall of this width in centimetres, in as few rows as fit there.
pub fn few_rows<'p>(
    alloc: Global,
    pictures: &'p [Picture],
    wall_width: usize,
) -> Result<Vec<&'p [Picture]>, AllocError>
    ensures fewest { IfOk result (λ rows. (others : List (List Picture))
        → IsAdmissible ⟦<Picture as Fragment>⟧.sizes (wall_width ∷ []) pictures.now others
        → length rows.items ≤ length others) }
{
    wrap_first_fit(alloc, pictures, &[wall_width])
}

/// The pictures in rows for a wall of this width in centimetres, divided at the least cost.
pub fn hung_rows<'p>(
    alloc: Global,
    pictures: &'p [Picture],
    wall_width: usize,
) -> Result<Vec<&'p [Picture]>, WrapError>
    ensures chosen { IfOk result (λ rows. IsChosen
        (problem_at default_penalties ⟦<Picture as Fragment>⟧.sizes (wall_width ∷ []) pictures.now)
        (map (λ row. row.now) rows.items)) }
{
    wrap_optimal_fit(alloc, pictures, &[wall_width], &Penalties::new())
}
