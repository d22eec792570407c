//! The version of the library.
ghost use Rattle.std.specs.Prelude.{◌≡◌};

/// The version of the library as one number: a million times its first part, a thousand times its
/// second, and its third.
#[unsafe(no_mangle)]
pub extern "C" fn busconf_version() -> u32
    ensures { result ≡ 3000 }
{
    3_000
}
