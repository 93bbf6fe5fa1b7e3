// Which version of these calls the library has.
ghost use Rattle.std.specs.Prelude.{◌≡◌};
ghost use Rattle.thaolisem.specs.Version.{calls_version};

// The number of this version of the calls.
#[unsafe(no_mangle)]
pub extern "C" fn thaolisem_version() -> u64
    ensures { result ≡ calls_version }
{
    thaolisem::thaolisem_version()
}
