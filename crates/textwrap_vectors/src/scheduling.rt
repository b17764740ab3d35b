//! Tasks assigned to days, each a fragment whose widths are hours.
ghost use Rattle.std.specs.Prelude.{◌≡◌, ◌≤◌, List, [], ◌∷◌, length, map, IfOk};
ghost use Rattle.std.specs.List.{flat_map};
ghost use Rattle.textwrap.specs.Division.{closed_width, IsAdmissible};
ghost use Rattle.textwrap_vectors.specs.Days.{task_sizes, names_of, day_view, day_of, AreDays};

use std::alloc::{AllocError, Allocator};
use textwrap::words::Fragment;
use textwrap::wrap_algorithms::{Penalties, wrap_first_fit};

/// A task, which is done on one day. After it the place is swept, or cleaned up for the night.
#[derive(Clone, Copy, Debug, PartialEq, Eq)]
pub struct Task<'a> {
    /// What it is called.
    pub name: &'a str,
    /// The hours that it takes.
    pub hours: usize,
    /// The hours of sweeping after it, before the next task of the same day.
    pub sweep: usize,
    /// The hours of cleanup after it, where it is the last task of its day.
    pub cleanup: usize,
}

impl Fragment for Task<'_> {
    ghost sizes = { task_sizes };

    fn width(&self) -> usize {
        self.hours
    }

    fn whitespace_width(&self) -> usize {
        self.sweep
    }

    fn penalty_width(&self) -> usize {
        self.cleanup
    }

    fn break_penalty(&self, penalties: &Penalties) -> usize {
        penalties.usual_break_penalty(self.penalty_width())
    }
}

/// A day, and the tasks that are done on it.
#[derive(Debug, Drop, PartialEq, Eq)]
pub struct Day<'a, A: Allocator> {
    /// The hours of its tasks, of the sweeping between them, and of the cleanup after the last.
    pub hours: u128,
    /// The names of its tasks, in order.
    pub names: Vec<&'a str, A>,
}

/// Assigns the tasks to days of `day_length` hours, in order. A day takes a task if it can end
/// after it: if its tasks, the sweeping between them and the cleanup after the last take no more
/// hours. It takes its first task in any case, so a task that is longer than a day has a day of its
/// own. No tasks give one day without any.
///
/// There is no way to do the tasks in this order in fewer days, if each day takes only such tasks.
///
/// At 8 hours, a task of 3 hours with 1 of sweeping and 2 of cleanup, and one of 2 hours with 2 and
/// 2, are done on one day, which takes 3 + 1 + 2 + 2 hours.
///
/// # Errors
/// Out of memory only.
pub fn assign_days<'a, A: Allocator + Copy>(
    alloc: A,
    tasks: &[Task<'a>],
    day_length: usize,
) -> Result<Vec<Day<'a, A>, A>, AllocError>
    ensures days { IfOk result (λ days.
        AreDays day_length tasks.now (map day_view days.items)) }

    // No task is lost, and none is done twice.
    ensures complete { IfOk result (λ days.
        flat_map (λ day. (day_view day).names) days.items ≡ names_of tasks.now) }

    ensures fewest { IfOk result (λ days. (plan : List (List Task))
        → IsAdmissible task_sizes (day_length ∷ []) tasks.now plan
        → length days.items ≤ length plan) }
{
    let lines = wrap_first_fit(alloc, tasks, &[day_length])?;
    let mut days = Vec::new(alloc);
    for line in &lines {
        days.push(day_of(alloc, line)?)?;
    }
    Ok(days)
}

/// The day of a line of tasks.
fn day_of<'a, A: Allocator>(alloc: A, line: &[Task<'a>]) -> Result<Day<'a, A>, AllocError>
    ensures { IfOk result (λ day. day_view day ≡ day_of line.now) }
{
    let mut names = Vec::new(alloc);
    for task in line {
        names.push(task.name)?;
    }
    let hours = closed_hours(line);
    Ok(Day { hours, names })
}

/// The hours of the tasks of a line, of the sweeping between them, and of the cleanup after the
/// last.
fn closed_hours(line: &[Task<'_>]) -> u128
    ensures { result ≡ closed_width task_sizes line.now }
{
    let Some((last, others)) = line.split_last() else {
        return 0;
    };
    let mut hours = 0u128;
    for task in others {
        hours += task.hours as u128 + task.sweep as u128;
    }
    hours + last.hours as u128 + last.cleanup as u128
}
