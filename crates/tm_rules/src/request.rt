//! What kind of request it is.
ghost use Rattle.std.specs.Prelude.{◌≡◌};
ghost use Rattle.tm_rules.specs.Prelude.{is_execute};

use tm_types::entry::Args;
use tm_types::request::Request;

/// Whether a request is an execute: the permission at place 0 of the row of single paths.
pub fn is_execute(request: &Request) -> bool
    ensures { result ≡ is_execute request.now }
{
    match request.args() {
        Args::Path(_) => request.perm() == 0,
        Args::Execute(_, _)
        | Args::PathNumber(_, _)
        | Args::Device(_, _, _, _)
        | Args::Path2(_, _)
        | Args::Mount(_, _, _, _)
        | Args::Inet(_, _, _)
        | Args::Unix(_, _)
        | Args::Env(_)
        | Args::Manual(_) => false,
    }
}
