//! Arguments that are numbers.

ghost use Rattle.clap.specs.Words.{found_of};
ghost use Rattle.command_line.specs.Needs.{HasNumber, HasSigned};
ghost use Rattle.command_line.specs.Tasks.{IsNumber};
ghost use Rattle.std.specs.Prelude.{◌≡◌, IfSome, Some, is_some, true};

use clap::ArgMatches;

/// The number that is given, where its text is one of 32 bits, which may have a sign.
pub(crate) fn signed_in(of: &ArgMatches<'_>, id: &str) -> Option<i32>
    ensures given { IfSome result (λ number. IsNumber (found_of of.now) id.now (Some number)) }
    ensures answers { HasSigned (found_of of.now) id.now → is_some result ≡ true }
{
    of.get_one::<i32>(id)
}

/// The number that is given, where its text is one of 64 bits.
pub(crate) fn number_in(of: &ArgMatches<'_>, id: &str) -> Option<u64>
    ensures { HasNumber (found_of of.now) id.now → is_some result ≡ true }
{
    of.get_one::<u64>(id)
}
