//! What the words after the program's name mean.
use super::plain::strings;
use crate::heap::Heap;
use std::alloc::{AllocError, Global};
use std::test::Fail;
use textwrap_program::arguments::{Algorithm, arguments, words_after_name};

/// Arguments, and how many words come after the name.
#[rattlefmt::skip]
const AFTER_NAME: &[(&[&str], &[&str])] = &[
    (&["textwrap"], &[]), (&["textwrap", "10"], &["10"]), (&["textwrap", "10", "first", "x"], &["10", "first", "x"]),
    (&["textwrap", "", "10"], &["", "10"]), (&[""], &[]), (&[], &[]),
];

/// Whether these are the words after the name.
fn are_after_name(alloc: Global, given: &[&str], expected: &[&str]) -> Result<bool, AllocError> {
    let words = words_after_name(alloc, strings(alloc, given)?.into_iter())?;
    Ok(words == strings(alloc, expected)?)
}

#[test]
fn the_first_argument_is_the_name(rt: HostRuntime) -> Result<(), Fail> {
    for &(given, expected) in AFTER_NAME {
        let is_right = are_after_name(rt.alloc(), given, expected)?;
        assert!(rt; is_right, "{expected:?}");
    }
    Ok(())
}

const NINE_WORDS: &[&str] = &["textwrap", "1", "2", "3", "4", "5", "6", "7", "8"];

/// How many words come after the name of [`NINE_WORDS`], if memory is left for all.
fn count_after_name(alloc: Global, heap: &Heap) -> Result<Option<usize>, AllocError> {
    let given = strings(alloc, NINE_WORDS)?;
    match words_after_name(heap, given.into_iter()) {
        Ok(words) => Ok(Some(words.len())),
        Err(_) => Ok(None),
    }
}

/// How many allocations are allowed, and the count: they are three.
const COUNTED: &[(usize, Option<usize>)] = &[(0, None), (1, None), (2, None), (3, Some(8))];

#[test]
fn words_out_of_memory_are_no_fewer_words(rt: HostRuntime) -> Result<(), Fail> {
    let heap = Heap::new(rt.alloc(), 0);
    for (allowed, expected) in COUNTED {
        heap.allow(*allowed);
        let count = count_after_name(rt.alloc(), &heap)?;
        assert!(rt; count == *expected, "{allowed}");
    }
    assert!(rt; heap.left() == 0);
    Ok(())
}

/// Words, and the width and the algorithm that they ask for, if they are a request.
#[rattlefmt::skip]
const REQUESTS: &[(&[&str], Option<(usize, Algorithm)>)] = &[
    // A width and `first`.
    (&["10", "first"], Some((10, Algorithm::FirstFit))),
    (&["007", "first"], Some((7, Algorithm::FirstFit))),
    (&["0", "first"], Some((0, Algorithm::FirstFit))),
    (&["18446744073709551615", "first"], Some((usize::MAX, Algorithm::FirstFit))),
    // Without an algorithm the least cost is meant.
    (&["10"], Some((10, Algorithm::OptimalFit))),
    (&["10", "optimal"], Some((10, Algorithm::OptimalFit))),
    // Other words are none.
    (&["18446744073709551616"], None),
    (&["18446744073709551616", "first"], None),
    (&["+5", "first"], None),
    (&["", "first"], None),
    (&["1O", "first"], None),
    (&["10", "First"], None),
    (&["10", "Optimal"], None),
    (&["10", ""], None),
    (&["10", "first", "x"], None),
    (&["first"], None),
    (&[], None),
];

/// Whether the words ask for this.
fn ask_for(
    alloc: Global,
    words: &[&str],
    expected: Option<(usize, Algorithm)>,
) -> Result<bool, AllocError> {
    let words = strings(alloc, words)?;
    Ok(match (arguments(&words), expected) {
        (Some(request), Some((width, algorithm))) => {
            request.width == width && request.algorithm == algorithm
        }
        (None, None) => true,
        _ => false,
    })
}

#[test]
fn words_are_a_request_or_none(rt: HostRuntime) -> Result<(), Fail> {
    for &(words, expected) in REQUESTS {
        assert!(rt; ask_for(rt.alloc(), words, expected)?, "{words:?}");
    }
    Ok(())
}
