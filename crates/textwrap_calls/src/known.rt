//! Bytes that are known to be UTF-8, as a text.
ghost use Rattle.std.specs.Prelude.{◌≡◌, IsUtf8};

use std::str::from_utf8_unchecked;

/// The text that the bytes are, which takes no test.
pub(crate) fn known_text(bytes: &[u8]) -> &str
    requires { IsUtf8 bytes.now }
    ensures { result.now ≡ bytes.now }
{
    // What is unsafe here is bytes that are no UTF-8: the contract asks for UTF-8, and each call of this
    // function is proved to bring it.
    unsafe { from_utf8_unchecked(bytes) }
}
