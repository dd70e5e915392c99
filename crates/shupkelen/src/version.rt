//! Which version the library is.
ghost use Rattle.std.specs.Prelude.{◌≡◌};
ghost use Rattle.shupkelen.specs.Exports.{version};

/// The version of the library, as one number: `SHUPKELEN_VERSION` of the header that belongs to it.
#[unsafe(no_mangle)]
pub extern "C" fn shupkelen_version() -> u32
    ensures { result ≡ version 0 1 0 }
{
    100
}
