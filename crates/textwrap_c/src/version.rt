//! The version of the library.
ghost use Rattle.std.specs.Prelude.{◌≡◌};

use textwrap_calls::version::LIBRARY_VERSION;

/// The version of the library, so that a program can tell whether it was linked to the one that its
/// header is of. It allocates nothing.
#[unsafe(no_mangle)]
pub extern "C" fn textwrap_library_version() -> u32
    ensures { result ≡ 20000 }
{
    LIBRARY_VERSION
}
