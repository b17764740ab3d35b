//! The table of least costs over any source of line costs.
ghost use Rattle.std.specs.Prelude.{◌≡◌, ℕ, ◌+◌, ◌<◌, ◌≤◌, length, map, IfOk, OnOk, SomeIff};
ghost use Rattle.textwrap_base.specs.Minima.{counted, table_steps};
ghost use Rattle.textwrap_base.specs.Errors.{Fits128Bits, Overflowed};
ghost use Rattle.textwrap_base.specs.Table.{entry_from, entry_at, cheaper_of, table, minimum_of};
ghost use Rattle.textwrap_base.specs.Table.{IsBestBelow, StopsAtOverflow};

use super::{CostSource, Minimum};
use crate::errors::{OverflowError, WrapError};
use std::alloc::{AllocError, Allocator};

/// The cost of a prefix, where its last line starts, and the number of the line after it.
#[derive(Clone, Copy)]
pub(super) struct Entry {
    start: usize,
    cost: u128,
    line_number: usize,
}

/// The entries of the table over all ends of the source.
pub(super) fn fill_table<A: Allocator, C: CostSource>(
    alloc: A,
    costs: &mut C,
) -> Result<Vec<Entry, A>, WrapError>
    ensures entries { IfOk result (λ entries.
        entries.items ≡ table (C.costs costs.old).cost (C.costs costs.old).ends) }
    ensures overflow { let entries = table (C.costs costs.old).cost (C.costs costs.old).ends
        in Overflowed result → StopsAtOverflow entries (C.costs costs.old).ends
        (C.steps costs.old) (C.steps costs.new) }
    ensures ok_only { let entries = table (C.costs costs.old).cost (C.costs costs.old).ends
        in OnOk result ((j : ℕ) → j ≤ (C.costs costs.old).ends
        → Fits128Bits (entry_at entries j).cost) }
    ensures same { C.costs costs.new ≡ C.costs costs.old }
    ensures steps_ok { OnOk result
        (C.steps costs.new ≡ counted (C.steps costs.old) (table_steps (C.costs costs.old).ends)) }
    ensures steps_most { C.steps costs.new
        ≤ counted (C.steps costs.old) (table_steps (C.costs costs.old).ends) }
{
    let mut entries = Vec::new(alloc);
    entries.push(Entry {
        start: 0,
        cost: 0,
        line_number: 0,
    })?;
    for last in 0..costs.ends() {
        let Some(entry) = cheapest(costs, &entries, last + 1) else {
            return Err(WrapError::Overflow(OverflowError));
        };
        entries.push(entry)?;
    }
    Ok(entries)
}

/// The cheapest entry for the end from the entries before it, of several the earliest.
fn cheapest<C: CostSource>(costs: &mut C, entries: &[Entry], end: usize) -> Option<Entry>
    requires within { end ≤ (C.costs costs.old).ends }
    requires len { length entries.now ≡ end }
    requires numbers { (k : ℕ) → k < length entries.now → (entry_at entries.now k).line_number ≤ k }
    ensures best { IsBestBelow (C.costs costs.old).cost entries.now end end result }
    ensures same { C.costs costs.new ≡ C.costs costs.old }
    ensures steps { C.steps costs.new ≡ counted (C.steps costs.old) end }
{
    let mut best = None;
    for (start, entry) in entries.iter().enumerate() {
        best = cheaper(best, entry_from(costs, start, entry, end));
    }
    best
}

/// What the line from `start` to `end` makes of the entry at its start.
fn entry_from<C: CostSource>(
    costs: &mut C,
    start: usize,
    entry: &Entry,
    end: usize,
) -> Option<Entry>
    requires ordered { start < end }
    requires within { end ≤ (C.costs costs.old).ends }
    requires number { entry.now.line_number ≤ start }
    ensures entry { SomeIff result
        (Fits128Bits (entry_from (C.costs costs.old).cost start entry.now end).cost)
        (entry_from (C.costs costs.old).cost start entry.now end) }
    ensures same { C.costs costs.new ≡ C.costs costs.old }
    ensures steps { C.steps costs.new ≡ counted (C.steps costs.old) 1 }
{
    let cost = costs.candidate(start, end, entry.line_number, entry.cost)?;
    Some(Entry {
        start,
        cost,
        line_number: entry.line_number + 1,
    })
}

/// The cheaper of two, the former where they cost the same. `None` passes every number.
fn cheaper(best: Option<Entry>, other: Option<Entry>) -> Option<Entry>
    ensures { result ≡ cheaper_of best other }
{
    match (best, other) {
        (Some(entry), Some(next)) if next.cost < entry.cost => Some(next),
        (None, next) => next,
        (found, _) => found,
    }
}

/// The starts and the costs of the entries, which are what a caller sees.
pub(super) fn minima_of<A: Allocator>(
    alloc: A,
    entries: &[Entry],
) -> Result<Vec<Minimum, A>, AllocError>
    ensures { IfOk result (λ minima. minima.items ≡ map minimum_of entries.now) }
{
    // `collect` would grow again where its first reservation is refused.
    let mut minima = Vec::with_capacity(alloc, entries.len())?;
    for entry in entries {
        minima.push(Minimum {
            start: entry.start,
            cost: entry.cost,
        })?;
    }
    Ok(minima)
}
