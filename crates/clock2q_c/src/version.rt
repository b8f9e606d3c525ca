//! The version of the library.
ghost use Rattle.clock2q_c.specs.Version.{version_number};
ghost use Rattle.std.specs.Prelude.{◌≡◌};

/// 10,000 times the major number, plus 100 times the minor one, plus the patch.
pub const VERSION: u32 = 300;

/// Returns the version of the library, [`VERSION`], which a program can compare with its header's.
///
/// # Cost
///
/// It needs no cache and reads no memory.
#[unsafe(no_mangle)]
pub extern "C" fn clock2q_version() -> u32
    ensures number { result ≡ version_number 0 3 0 }
{
    VERSION
}
