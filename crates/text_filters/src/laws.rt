//! Laws of the definitions that the contracts cite. Each is the contract of a function that does
//! nothing, so that a proof may call on it.
ghost use Rattle.text_filters.specs.Laws.{SoundStreamsAreServed};

use crate::filter::Filter;

/// Over streams that do not fail, what the standard input becomes is printed, with status 0. Only
/// where memory runs out, or what was read is no text, nothing is printed, with status 2 and a
/// message that says which it was.
pub fn sound_streams_are_served<T: Filter>(_filter: &T)
    ensures { SoundStreamsAreServed (T.work _filter.now) }
{}
