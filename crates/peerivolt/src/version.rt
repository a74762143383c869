// Which version of the library this is.
ghost use Rattle.std.specs.Prelude.{◌≡◌};

// The version as one number, the header's PV_VERSION: the major number times 1,000,000, plus the minor one times 1,000,
// plus the patch.
#[unsafe(no_mangle)]
pub extern "C" fn pv_version() -> u32
    ensures { result ≡ 2000 }
{
    2000
}
