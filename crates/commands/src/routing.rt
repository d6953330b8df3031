//! What the command `route` needs from outside: something that runs routers.

ghost use Rattle.std.specs.Prelude.{◌≤◌};

use std::io::{BufRead, Write};

/// Runs routers, or keeps what is to be run. The caller of the program passes one in, so that this
/// crate doesn't depend on the router.
pub trait Routing {
    /// Runs the router of a configuration's text, with a console that reads commands from `input`
    /// and answers on `output`, until `quit` or the end of input. Returns the status: 0 done, 1
    /// refused, 3 a socket or the output failed, 4 memory was refused. If no router can be run, a
    /// line on `output` says why. Or it keeps the text for the caller, who runs the router later:
    /// then it returns 0, and leaves both streams alone.
    fn route<I: BufRead, O: Write>(&self, text: &str, input: &mut I, output: &mut O) -> u8
        ensures { result ≤ 4 };
}
