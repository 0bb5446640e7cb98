//! What `clap` makes of the words of a command.

ghost use Rattle.std.specs.Prelude.{◌≡◌, ◌≢◌, [], IfOk, Err, true};
ghost use Rattle.clap.specs.Walk.{texts};
ghost use Rattle.clap.specs.Words.{app_of, fault_of, found_of, is_simple_and_free, matches_of, rows_of};

use crate::request::WordsFault;
use clap::error::ErrorKind;
use clap::{ArgMatches, Command};

// What words give the arguments of a command. The first word is the command's own. Refuses with `Usage` only
// where `clap` finds a fault in the words.
pub(crate) fn matched<'a>(
    command: Command<'a>,
    words: &'a [&'a str],
) -> Result<ArgMatches<'a>, WordsFault>
    requires { is_simple_and_free (app_of command) ≡ true }
    ensures faultless { IfOk result (λ _. fault_of (app_of command.entry) (texts words.entry.now) ≡ []) }
    ensures rows { IfOk result (λ m. rows_of (found_of m) ≡ matches_of (app_of command.entry) (texts words.entry.now)) }
    ensures usage { result ≡ Err WordsFault.Usage → fault_of (app_of command.entry) (texts words.entry.now) ≢ [] }
{
    match command.try_get_matches_from(words) {
        Ok(matches) => Ok(matches),
        Err(error) => match error.kind() {
            ErrorKind::OutOfMemory => Err(WordsFault::NoMemory),
            _ => Err(WordsFault::Usage),
        },
    }
}
