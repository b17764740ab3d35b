//! The lines of least cost of a paragraph, found from where its pieces stand, without a list of
//! words.
ghost use Rattle.std.specs.Prelude.{◌≡◌, ◌<◌, ◌-◌, ◌^◌, List, map, length, IfOk, IsTrue, OnOk};
ghost use Rattle.textwrap_base.specs.Cost.{problem_at, problem_by};
ghost use Rattle.textwrap_base.specs.OptimalFit.{IsByOptimalFit};
ghost use Rattle.textwrap_base.specs.Queue.{SuitQueue};
ghost use Rattle.textwrap_base.specs.Table.{fragment_costs, IsByTable};
ghost use Rattle.textwrap_words.specs.Words.{WordText, sizes_of};
ghost use Rattle.textwrap_lines.specs.LeastCost.{SuitSearch};
ghost use Rattle.textwrap_layout.specs.Direct.{CanBeCut, pieces_cut, cuts_of};
ghost use Rattle.textwrap_layout.specs.Frame.{frame_lines, frame_settings, frame_widths};
ghost use Rattle.textwrap_layout.specs.LineSinks.{Pushed};
ghost use Rattle.textwrap_lines.specs.Spans.{AreSpans, HaveTexts, span_lines};
ghost use Rattle.textwrap_lines.specs.Spans.{span_priced};

use crate::spans::{Span, find_spans};
use std::alloc::{AllocError, Allocator};
use textwrap_base::inner::{line_cost, lines_by};
use textwrap_base::minima::{CostSource, queue_search};
use textwrap_layout::frame::Frame;
use textwrap_layout::layout::next_indent;
use textwrap_layout::line_bounds::{LineBounds, push_between};
use textwrap_layout::line_sinks::LineSink;
use textwrap_layout::paragraph_pieces::Cuts;
use textwrap_words::wrap_algorithms::Penalties;

/// The greatest length of a text whose lines are searched for. It has at most as many columns, and
/// a line then costs at most 2^125.
const LIMIT: usize = 1 << 62;

/// Whether the lines of least cost of a paragraph can be searched for: not in an empty one, and not
/// where a number is too great.
pub(crate) fn suits_search(paragraph: &str, frame: &Frame<'_>, penalties: &Penalties) -> bool
    ensures some { IsTrue result → 0 < length paragraph.now }
    ensures suits { IsTrue result → SuitSearch (length paragraph.now) (frame_widths frame.now)
        penalties.now }
{
    0 < paragraph.len()
        && paragraph.len() <= LIMIT
        && frame.first_columns <= LIMIT
        && frame.later_columns <= LIMIT
        && penalties.nline_penalty <= LIMIT
        && penalties.overflow_penalty <= LIMIT
        && penalties.short_last_line_fraction <= LIMIT
        && penalties.short_last_line_penalty <= LIMIT
        && penalties.hyphen_penalty <= LIMIT
}

/// Pushes the lines of least cost of a paragraph that is cut there.
///
/// # Errors
/// [`AllocError`] where memory runs out.
pub(crate) fn push_by_least_cost<'t, A: Allocator + Copy, S: LineSink<'t, A>>(
    alloc: A,
    paragraph: &'t str,
    frame: &Frame<'_>,
    cuts: &Cuts<'_>,
    penalties: &Penalties,
    lines: &mut S,
) -> Result<(), AllocError>
    requires cuts { CanBeCut (cuts_of cuts.now) paragraph.now }
    requires some { 0 < length paragraph.now }
    requires suits { SuitSearch (length paragraph.now) (frame_widths frame.now) penalties.now }
    ensures name { S.name lines.new ≡ S.name lines.old }
    ensures pushed { OnOk result ((division : List (List WordText))
        × IsByOptimalFit (problem_at penalties.now sizes_of (frame_widths frame.now)
        (pieces_cut (frame_settings frame.now) cuts.now paragraph.now)) division
        × Pushed S.holds lines.old lines.new (frame_lines frame.now division)) }
{
    let spans = find_spans(alloc, paragraph, frame, cuts)?;
    let line_widths = [frame.first_columns, frame.later_columns];
    let division = least_cost_lines(alloc, &spans, &line_widths, penalties)?;
    push_lines(alloc, paragraph, &division, frame, lines)
}

/// The lines of least cost of some pieces.
// The same function for all sinks: so the search is inlined in it, and takes a sixth fewer instructions.
fn least_cost_lines<'a, A: Allocator + Copy>(
    alloc: A,
    spans: &'a [Span],
    line_widths: &[usize],
    penalties: &Penalties,
) -> Result<Vec<&'a [Span], A>, AllocError>
    requires measured { AreSpans spans.now }
    requires some { 0 < length spans.now }
    requires suits { SuitQueue (fragment_costs
        (problem_by span_priced penalties.now line_widths.now spans.now)) }
    ensures { IfOk result (λ lines. IsByTable
        (problem_by span_priced penalties.now line_widths.now spans.now)
        (map (λ line. line.now) lines.items)) }
{
    let mut costs = SpanCosts {
        spans,
        line_widths,
        penalties: *penalties,
    };
    let minima = queue_search(alloc, &mut costs)?;
    lines_by(alloc, spans, &minima)
}

/// The costs of the lines of pieces. Their count of steps stands at its end from the start, so that
/// none has to be counted.
#[derive(Drop)]
struct SpanCosts<'a, 'w> {
    spans: &'a [Span],
    line_widths: &'w [usize],
    penalties: Penalties,
    ghost measured: { AreSpans spans.now },
}

impl CostSource for SpanCosts<'_, '_> {
    ghost costs = { λ s. fragment_costs
        (problem_by span_priced s.penalties s.line_widths.now s.spans.now) };

    ghost steps = { λ s. 2 ^ 128 - 1 };

    fn ends(&self) -> usize {
        self.spans.len()
    }

    fn candidate(
        &mut self,
        start: usize,
        end: usize,
        line_number: usize,
        before: u128,
    ) -> Option<u128> {
        let cost = line_cost(
            self.spans,
            self.line_widths,
            &self.penalties,
            start,
            end,
            line_number,
        )?;
        before.checked_add(cost)
    }
}

/// Pushes the line of each list of pieces.
fn push_lines<'t, A: Allocator + Copy, S: LineSink<'t, A>>(
    alloc: A,
    paragraph: &'t str,
    division: &[&[Span]],
    frame: &Frame<'_>,
    lines: &mut S,
) -> Result<(), AllocError>
    requires { HaveTexts paragraph.now 0 (map (λ line. line.now) division.now) }
    ensures name { S.name lines.new ≡ S.name lines.old }
    ensures pushed { OnOk result (Pushed S.holds lines.old lines.new
        (span_lines (frame_settings frame.now) paragraph.now frame.now.is_later 0
        (map (λ line. line.now) division.now))) }
{
    let layout = &frame.layout;
    let mut start = 0;
    let mut has_line = frame.is_later;
    for line in division {
        let last = &line[line.len() - 1];
        let bounds = LineBounds {
            start,
            word_end: last.word_end,
            end: last.end,
        };
        let indent = next_indent(layout, has_line);
        push_between(alloc, paragraph, bounds, layout, indent, "", lines)?;
        start = last.end;
        has_line = true;
    }
    Ok(())
}
