//! A text, cut at its first line feed.
ghost use Rattle.std.specs.Prelude.{◌≡◌, ◌≢◌, ℕ, ◌+◌, ◌<◌, ◌≤◌, ◌++◌, ◌∷◌, length, slice_index};
ghost use Rattle.std.specs.Prelude.{All, MatchOption};
ghost use Rattle.std.specs.Int.{trailing_zeros, w64};
ghost use Rattle.textwrap_text.specs.LineEnding.{line_feed};

use std::simd::prelude::*;

/// How many bytes are looked at together.
const BLOCK: usize = 16;

/// What stands before the first line feed and what follows it, where there is one.
#[inline(always)]
pub(crate) fn split_at_line_feed(text: &str) -> Option<(&str, &str)>
    ensures { MatchOption result (All (λ b. b ≢ line_feed) text.now)
        (λ parts. All (λ b. b ≢ line_feed) parts.0.now
        × (text.now ≡ parts.0.now ++ line_feed ∷ parts.1.now)) }
{
    let at = line_feed_at(text.as_bytes());
    if at == text.len() {
        return None;
    }
    Some((&text[..at], &text[at + 1..]))
}

/// How many bytes stand before the first line feed, or in a text that has none.
fn line_feed_at(text: &[u8]) -> usize
    ensures within { result ≤ length text.now }
    ensures lacks { (k : ℕ) → k < result → slice_index text.now k ≢ line_feed }
    ensures stops { result < length text.now → slice_index text.now result ≡ line_feed }
{
    if text.len() < BLOCK {
        return near_line_feed_at(text);
    }
    // The last block may overlap the one before it.
    let last = text.len() - BLOCK;
    let mut at = 0;
    while at < last {
        let feeds = feeds_in_block(text, at);
        if feeds != 0 {
            return at + feeds.trailing_zeros() as usize;
        }
        at += BLOCK;
    }
    let feeds = feeds_in_block(text, last);
    if feeds == 0 {
        text.len()
    } else {
        last + feeds.trailing_zeros() as usize
    }
}

/// The same of a text that is shorter than a block.
fn near_line_feed_at(text: &[u8]) -> usize
    ensures within { result ≤ length text.now }
    ensures lacks { (k : ℕ) → k < result → slice_index text.now k ≢ line_feed }
    ensures stops { result < length text.now → slice_index text.now result ≡ line_feed }
{
    let mut at = 0;
    while at < text.len() && text[at] != b'\n' {
        at += 1;
    }
    at
}

/// The line feeds in the block that begins here, a bit for each byte: the lowest for the first.
#[inline(always)]
fn feeds_in_block(text: &[u8], at: usize) -> u64
    requires { at + 16 ≤ length text.now }
    ensures none { result ≡ 0
        → (k : ℕ) → at ≤ k → k < at + 16 → slice_index text.now k ≢ line_feed }
    ensures first { result ≢ 0 → (trailing_zeros w64 result < 16)
        × ((k : ℕ) → at ≤ k → k < at + trailing_zeros w64 result
        → slice_index text.now k ≢ line_feed)
        × (slice_index text.now (at + trailing_zeros w64 result) ≡ line_feed) }
{
    u8x16::from_slice(&text[at..])
        .simd_eq(u8x16::splat(b'\n'))
        .to_bitmask()
}
