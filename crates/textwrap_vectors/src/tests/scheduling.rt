//! The days that tasks are assigned to.
use super::given::{Found, assert_found, assert_row};
use crate::heap::Heap;
use crate::{Day, Task, assign_days};
use std::alloc::{AllocError, Allocator, Global};
use std::process::Abort;

/// A task: its name, and its hours of work, of sweeping and of cleanup.
type Row<'a> = (&'a str, usize, usize, usize);

/// Days, each by its hours and the names of its tasks.
type Plan<'a> = &'a [(u128, &'a [&'a str])];

/// The tasks of these rows.
fn tasks_of<'a>(alloc: Global, rows: &[Row<'a>]) -> Result<Vec<Task<'a>>, AllocError> {
    let mut tasks = Vec::new(alloc);
    for &(name, hours, sweep, cleanup) in rows {
        tasks.push(Task {
            name,
            hours,
            sweep,
            cleanup,
        })?;
    }
    Ok(tasks)
}

/// The days that the tasks of these rows are assigned to. What the call allocates is of `of_call`.
fn plain_days<'a, A: Allocator + Copy>(
    alloc: Global,
    of_call: A,
    rows: &[Row<'a>],
    day_length: usize,
) -> Result<Vec<Day<'a, A>, A>, AllocError> {
    let tasks = tasks_of(alloc, rows)?;
    assign_days(of_call, &tasks, day_length)
}

/// Whether the days are these.
fn are_days(days: &[Day<'_, Global>], expected: Plan<'_>) -> bool {
    for (day, (hours, names)) in days.iter().zip(expected) {
        if day.hours != *hours || day.names.as_slice() != *names {
            return false;
        }
    }
    days.len() == expected.len()
}

/// Asserts that the tasks are assigned to these days.
fn assert_days(
    rt: &(impl Abort + AllocGlobal),
    rows: &[Row<'_>],
    day_length: usize,
    expected: Plan<'_>,
) {
    let days = plain_days(rt.alloc(), rt.alloc(), rows, day_length).expect(rt, "days");
    let is_right = are_days(&days, expected);
    assert!(rt; is_right, "at {day_length} hours: {days:?}");
}

/// The tasks of building a house.
#[rattlefmt::skip]
const HOUSE: &[Row<'_>] = &[
    ("Foundation", 4, 2, 3), ("Framing", 3, 1, 2), ("Plumbing", 2, 2, 2), ("Electrical", 2, 1, 2),
    ("Insulation", 2, 1, 2), ("Drywall", 3, 1, 2), ("Floors", 3, 1, 2), ("Countertops", 1, 1, 2),
    ("Bathrooms", 2, 1, 2),
];

const MAX: usize = usize::MAX;

/// The greatest number of hours.
const LONGEST: u128 = 18_446_744_073_709_551_615;

#[rattlefmt::skip]
const PLANS: &[(usize, &[Row<'_>], Plan<'_>)] = &[
    // A day takes tasks while they, the sweeping between them and the cleanup after the last fit:
    // one that is full to the hour is right, and one hour more is too much.
    (8, HOUSE, &[
        (7, &["Foundation"]),
        (8, &["Framing", "Plumbing"]),
        (7, &["Electrical", "Insulation"]),
        (5, &["Drywall"]),
        (7, &["Floors", "Countertops"]),
        (4, &["Bathrooms"]),
    ]),
    (16, HOUSE, &[(14, &["Foundation", "Framing", "Plumbing"]), (15, &["Electrical", "Insulation", "Drywall", "Floors"]), (6, &["Countertops", "Bathrooms"])]),
    // No tasks give one day of 0 hours, and not no day.
    (8, &[], &[(0, &[])]),
    // A day takes its first task in any case: one that is longer than the day is there alone, with
    // all its hours, also where they pass 64 bits.
    (8, &[("a", 2, 1, 1), ("b", 10, 1, 2), ("c", 2, 1, 1)], &[(3, &["a"]), (12, &["b"]), (3, &["c"])]),
    (0, &[("a", 1, 0, 0), ("b", 0, 0, 1), ("c", 1, 1, 1)], &[(1, &["a"]), (1, &["b"]), (2, &["c"])]),
    (MAX, &[("a", MAX, MAX, MAX), ("b", MAX, MAX, MAX)], &[(36_893_488_147_419_103_230, &["a"]), (36_893_488_147_419_103_230, &["b"])]),
    // A day may have any number of hours, and so may a task: a day is full to its last hour, and
    // sums do not come back to 0.
    (0, &[("a", 0, 0, 0), ("b", 0, 0, 0)], &[(0, &["a", "b"])]),
    (0, &[("a", 0, 1, 0), ("b", 0, 0, 0)], &[(0, &["a"]), (0, &["b"])]),
    (0, &[("a", 0, 0, 1), ("b", 0, 0, 1)], &[(1, &["a"]), (1, &["b"])]),
    (1, &[("a", 0, 1, 0), ("b", 0, 0, 0)], &[(1, &["a", "b"])]),
    (1, &[("a", 0, 0, 1), ("b", 0, 0, 1)], &[(1, &["a", "b"])]),
    (1, &[("a", 1, 0, 0), ("b", 1, 0, 0)], &[(1, &["a"]), (1, &["b"])]),
    (MAX - 1, &[("a", MAX - 1, 0, 0), ("b", 1, 0, 0)], &[(LONGEST - 1, &["a"]), (1, &["b"])]),
    (MAX, &[("a", MAX - 1, 0, 0), ("b", 1, 0, 0)], &[(LONGEST, &["a", "b"])]),
    (MAX, &[("a", MAX - 1, 1, MAX), ("b", 0, 0, 0)], &[(LONGEST, &["a", "b"])]),
    (MAX, &[("a", 0, MAX, 0), ("b", 0, 0, 1)], &[(0, &["a"]), (1, &["b"])]),
];

/// A day takes its tasks in order while they fit, and its first in any case.
#[test]
fn a_day_takes_tasks_while_they_fit(rt: HostRuntime) {
    for &(day_length, rows, plan) in PLANS {
        assert_days(&rt, rows, day_length, plan);
    }
}

/// The names of all days, joined.
fn names_of<'a>(alloc: Global, days: &[Day<'a, Global>]) -> Result<Vec<&'a str>, AllocError> {
    let mut names = Vec::new(alloc);
    for day in days {
        names.extend_from_slice(&day.names)?;
    }
    Ok(names)
}

/// Whether these are the names of the rows.
fn are_names(names: &[&str], rows: &[Row<'_>]) -> bool {
    for (name, row) in names.iter().zip(rows) {
        if *name != row.0 {
            return false;
        }
    }
    names.len() == rows.len()
}

/// Whether the names of the days that the house takes are those of its tasks.
fn keeps_all(alloc: Global, day_length: usize) -> Found {
    let days = plain_days(alloc, alloc, HOUSE, day_length)?;
    let names = names_of(alloc, &days)?;
    Ok(are_names(&names, HOUSE))
}

/// The names of the days, joined, are those of the tasks in order: none is lost, and none is there
/// twice.
#[test]
fn each_task_is_done_once_and_in_order(rt: HostRuntime) {
    for day_length in [0, 5, 8, 16, 30, MAX] {
        assert_found(&rt, day_length, keeps_all(rt.alloc(), day_length));
    }
}

/// How many days the house takes, at 8 hours each.
fn days_of_house(alloc: Global, heap: &Heap) -> Result<usize, AllocError> {
    Ok(plain_days(alloc, heap, HOUSE, 8)?.len())
}

/// Where one of its allocations is refused, no plan is made.
#[test]
fn a_refused_plan_has_no_days(rt: HostRuntime) {
    let heap = Heap::new(rt.alloc(), 0);
    for allowed in 0..10 {
        heap.allow(allowed);
        assert_row(&rt, allowed, days_of_house(rt.alloc(), &heap).is_err());
    }
    heap.allow(10);
    assert!(rt; matches!(days_of_house(rt.alloc(), &heap), Ok(6)));
    assert!(rt; heap.left() == 0);
}
