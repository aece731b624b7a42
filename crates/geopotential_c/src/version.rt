// The version of the entries.
ghost use Rattle.std.specs.Prelude.{◌≡◌};

// Raised wherever an entry's parameters or the meaning of its answer change: include/geopotential.h has the same number as a constant.
#[unsafe(no_mangle)]
pub extern "C" fn geopotential_version() -> u32
    ensures { result ≡ 3 }
{
    geopotential::version::geopotential_version()
}
