// The version of the library, so that a host can ask what it has loaded.
ghost use Rattle.std.specs.Prelude.{◌≡◌};

// 10000 * major + 100 * minor + patch of the library's own header.
const VERSION: u32 = 40300;

// LTA_VERSION_NUMBER of that header.
#[unsafe(no_mangle)]
pub extern "C" fn lta_version() -> u32
    ensures { result ≡ 40300 }
{
    VERSION
}
