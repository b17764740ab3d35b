//! The laws that are about a type of fragments.
use textwrap::laws::{
    chosen_division_is_unique, greedy_division_is_unique, table_division_is_unique,
    table_overflow_is_overflow,
};
use textwrap::words::Word;
use textwrap::wrap_algorithms::Penalties;

/// Words are such a type. (A law does nothing when it is called: that the calls are there shows
/// that they can be made.)
#[test]
fn laws_hold_for_words() {
    let words = [Word::from("foo")];
    let penalties = Penalties::new();
    greedy_division_is_unique::<Word<'_>>();
    chosen_division_is_unique(&words, &[10], &penalties);
    table_division_is_unique(&words, &[10], &penalties);
    table_overflow_is_overflow(&words, &[10], &penalties);
}
