//! Which version the library has, and which interface.
ghost use Rattle.std.specs.Prelude.{◌≡◌, ◌+◌, ◌*◌};

use crate::plain::{INTERFACE, VERSION_MAJOR, VERSION_MINOR, VERSION_PATCH};

/// The version of the library that was linked, in the form of `GUILLOTIERE_VERSION`.
#[unsafe(no_mangle)]
pub extern "C" fn guillotiere_version() -> u32
    ensures { result ≡ VERSION_MAJOR * 1000000 + VERSION_MINOR * 1000 + VERSION_PATCH }
{
    VERSION_MAJOR * 1_000_000 + VERSION_MINOR * 1_000 + VERSION_PATCH
}

/// The interface of the library that was linked, in the form of `GUILLOTIERE_INTERFACE`.
#[unsafe(no_mangle)]
pub extern "C" fn guillotiere_interface() -> u32
    ensures { result ≡ INTERFACE }
{
    INTERFACE
}
