//! The lines of least cost of a paragraph's pieces.
ghost use Rattle.std.specs.Prelude.{◌≡◌, ◌-◌, ◌^◌, map, IfOk};
ghost use Rattle.textwrap_base.specs.Cost.{problem_at, problem_by, total_width};
ghost use Rattle.textwrap_base.specs.Errors.{Fits64Bits, Overflowed};
ghost use Rattle.textwrap_base.specs.OptimalFit.{IsByOptimalFit};
ghost use Rattle.textwrap_base.specs.PrefixSums.{HavePrefixSums};
ghost use Rattle.textwrap_base.specs.Queue.{SuitQueue};
ghost use Rattle.textwrap_base.specs.Table.{IsByTable, fragment_costs};
ghost use Rattle.textwrap_words.specs.Words.{sizes_of};
ghost use Rattle.textwrap_marked.specs.Pieces.{AreInRow, piece_priced, piece_view};

use crate::pieces::JoinedPiece;
use std::alloc::{AllocError, Global};
use textwrap_base::inner::{line_cost, lines_by};
use textwrap_base::minima::{CostSource, is_queue_case, queue_search};
use textwrap_words::wrap_algorithms::{Penalties, WrapError, wrap_optimal_fit};

/// The pieces, divided into lines of these widths at least cost. In all texts of some use they are
/// searched for among the pieces as they are, without a second list of what these take.
pub(crate) fn divide_at_least_cost<'p, 't>(
    alloc: Global,
    penalties: &Penalties,
    pieces: &'p [JoinedPiece<'t>],
    widths: &[usize],
) -> Result<Vec<&'p [JoinedPiece<'t>]>, WrapError>
    requires row { AreInRow 0 pieces.now }
    requires fits { Fits64Bits (total_width (λ piece. sizes_of (piece_view piece)) pieces.now) }
    ensures divided { IfOk result (λ lines. IsByOptimalFit (problem_at penalties.now
        (λ piece. sizes_of (piece_view piece)) widths.now pieces.now)
        (map (λ line. line.now) lines.items)) }
    ensures only_memory { ¬ Overflowed result }
{
    if !is_queue_case(pieces, widths, penalties) {
        return wrap_optimal_fit(alloc, pieces, widths, penalties);
    }
    Ok(search(alloc, penalties, pieces, widths)?)
}

/// The lines of the table of least costs, which are searched for.
fn search<'p, 't>(
    alloc: Global,
    penalties: &Penalties,
    pieces: &'p [JoinedPiece<'t>],
    widths: &[usize],
) -> Result<Vec<&'p [JoinedPiece<'t>]>, AllocError>
    requires measured { HavePrefixSums piece_priced (λ piece. piece.opens) (λ piece. piece.closes)
        pieces.now }
    requires suits { SuitQueue (fragment_costs
        (problem_by piece_priced penalties.now widths.now pieces.now)) }
    ensures { IfOk result (λ lines. IsByTable
        (problem_by piece_priced penalties.now widths.now pieces.now)
        (map (λ line. line.now) lines.items)) }
{
    let mut costs = PieceCosts {
        pieces,
        widths,
        penalties: *penalties,
    };
    let minima = queue_search(alloc, &mut costs)?;
    lines_by(alloc, pieces, &minima)
}

/// The costs of the lines of pieces. Their count of steps stands at its end from the start, so that
/// none has to be counted.
#[derive(Drop)]
struct PieceCosts<'p, 't, 'w> {
    pieces: &'p [JoinedPiece<'t>],
    widths: &'w [usize],
    penalties: Penalties,
    ghost measured: { HavePrefixSums piece_priced (λ piece. piece.opens) (λ piece. piece.closes)
        pieces.now },
}

impl CostSource for PieceCosts<'_, '_, '_> {
    ghost costs = { λ s. fragment_costs
        (problem_by piece_priced s.penalties s.widths.now s.pieces.now) };

    ghost steps = { λ s. 2 ^ 128 - 1 };

    fn ends(&self) -> usize {
        self.pieces.len()
    }

    fn candidate(
        &mut self,
        start: usize,
        end: usize,
        line_number: usize,
        before: u128,
    ) -> Option<u128> {
        let cost = line_cost(
            self.pieces,
            self.widths,
            &self.penalties,
            start,
            end,
            line_number,
        )?;
        before.checked_add(cost)
    }
}
