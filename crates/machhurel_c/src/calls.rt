// The C interface: include/machhurel.h says it in C's words.
ghost use Rattle.std.specs.Prelude.{◌≡◌};
ghost use Rattle.definition.specs.Behaviors.{digest_call, privilege_call, exceptions_call};
ghost use Rattle.definition.specs.Listings.{listing_call};
ghost use Rattle.definition.specs.Readings.{read_at};
ghost use Rattle.definition.specs.Visits.{visit_of};
ghost use Rattle.answers.specs.Answers.{packed, digest_bits, privilege_bits, exception_bits, event_bits, difference_bits};
ghost use Rattle.difference.specs.Partings.{parted_of};

#[unsafe(no_mangle)]
pub extern "C" fn machhurel_visit(bytes: &[u8], file: &[u8], log: &mut [u8], start: usize) -> u64
    ensures { (result, log.new) ≡ packed (visit_of bytes.now file.now log.old start) }
{
    machhurel::machhurel_visit(bytes, file, log, start)
}

#[unsafe(no_mangle)]
pub extern "C" fn machhurel_listing(bytes: &[u8], out: &mut [u8], start: usize) -> u64
    ensures { (result, out.new) ≡ packed (listing_call bytes.now out.old start) }
{
    machhurel::machhurel_listing(bytes, out, start)
}

#[unsafe(no_mangle)]
pub extern "C" fn machhurel_digest(bytes: &[u8]) -> u64
    ensures { result ≡ digest_bits (digest_call bytes.now) }
{
    machhurel::machhurel_digest(bytes)
}

#[unsafe(no_mangle)]
pub extern "C" fn machhurel_privilege(bytes: &[u8]) -> u64
    ensures { result ≡ privilege_bits (privilege_call bytes.now) }
{
    machhurel::machhurel_privilege(bytes)
}

#[unsafe(no_mangle)]
pub extern "C" fn machhurel_exceptions(bytes: &[u8]) -> u64
    ensures { result ≡ exception_bits (exceptions_call bytes.now) }
{
    machhurel::machhurel_exceptions(bytes)
}

#[unsafe(no_mangle)]
pub extern "C" fn machhurel_event(log: &[u8], at: usize) -> u64
    ensures { result ≡ event_bits at (read_at log.now at) }
{
    machhurel::machhurel_event(log, at)
}

#[unsafe(no_mangle)]
pub extern "C" fn machhurel_difference(first: &[u8], second: &[u8], at: &mut u64) -> u64
    ensures { (result ≡ difference_bits (parted_of first.now second.now))
        × (at.new ≡ (parted_of first.now second.now).at) }
{
    machhurel::machhurel_difference(first, second, at)
}
