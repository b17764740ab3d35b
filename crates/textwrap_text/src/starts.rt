//! What a text starts with.
ghost use Rattle.std.specs.Prelude.{◌≡◌, false, true, drop, length, nat_eq, MatchOption};
ghost use Rattle.std.specs.List.{starts_with};

/// Whether a text starts with another. The call always succeeds.
pub fn starts_with(text: &str, start: &str) -> bool
    ensures { result ≡ starts_with nat_eq text.now start.now }
{
    text.starts_with(start)
}

/// What follows this start of a text, or `None` where the text starts otherwise. The call always
/// succeeds.
pub fn without_start<'t>(text: &'t str, start: &str) -> Option<&'t str>
    ensures { MatchOption result (starts_with nat_eq text.now start.now ≡ false)
        (λ rest. (starts_with nat_eq text.now start.now ≡ true)
        × (rest.now ≡ drop (length start.now) text.now)) }
{
    text.strip_prefix(start)
}
