//! The function that each permission has in a profile.
ghost use Rattle.std.specs.Prelude.{◌≡◌, ◌<◌, length, Some};
ghost use Rattle.tm_types.specs.Functions.{inet_functions, unix_functions, row_functions, function_of};

use crate::entry::{Args, InetKind, UnixKind};
use crate::policy::Function;

fn inet_row(kind: InetKind) -> &'static [Function]
    ensures { result.now ≡ inet_functions kind }
{
    match kind {
        InetKind::Stream => &[
            Function::InetStreamBind,
            Function::InetStreamListen,
            Function::InetStreamConnect,
        ],
        InetKind::Dgram => &[Function::InetDgramBind, Function::InetDgramSend],
        InetKind::Raw => &[Function::InetRawBind, Function::InetRawSend],
    }
}

fn unix_row(kind: UnixKind) -> &'static [Function]
    ensures { result.now ≡ unix_functions kind }
{
    match kind {
        UnixKind::Stream => &[
            Function::UnixStreamBind,
            Function::UnixStreamListen,
            Function::UnixStreamConnect,
        ],
        UnixKind::Dgram => &[Function::UnixDgramBind, Function::UnixDgramSend],
        UnixKind::Seqpacket => &[
            Function::UnixSeqpacketBind,
            Function::UnixSeqpacketListen,
            Function::UnixSeqpacketConnect,
        ],
    }
}

/// The functions of the permissions of a row, in the row's order.
fn row(args: &Args) -> &'static [Function]
    ensures { result.now ≡ row_functions args.now }
{
    match args {
        Args::Path(_) => &[
            Function::Execute,
            Function::Open,
            Function::Open,
            Function::Open,
            Function::Unlink,
            Function::Getattr,
            Function::Rmdir,
            Function::Truncate,
            Function::Symlink,
            Function::Chroot,
            Function::Unmount,
        ],
        Args::Execute(_, _) => &[Function::Execute],
        Args::PathNumber(_, _) => &[
            Function::Create,
            Function::Mkdir,
            Function::Mkfifo,
            Function::Mksock,
            Function::Ioctl,
            Function::Chmod,
            Function::Chown,
            Function::Chgrp,
        ],
        Args::Device(_, _, _, _) => &[Function::Mkblock, Function::Mkchar],
        Args::Path2(_, _) => &[Function::Link, Function::Rename, Function::PivotRoot],
        Args::Mount(_, _, _, _) => &[Function::Mount],
        Args::Inet(kind, _, _) => inet_row(*kind),
        Args::Unix(kind, _) => unix_row(*kind),
        Args::Env(_) => &[Function::Env],
        Args::Manual(_) => &[],
    }
}

/// The function of the permission at this place, from 0, of the row of `args`: None past the row's
/// last permission, and for a manual transition, for which no profile has a mode.
#[tactic(auto, unfolding(crate::specs::Functions::function_of))]
pub fn function_at(args: &Args, perm: u8) -> Option<Function>
    ensures { result ≡ function_of args.now perm }
{
    row(args).get(usize::from(perm)).copied()
}

/// The function of the permission at this place, from 0, of the row of `args`, where the row has
/// that place.
#[tactic(auto, unfolding(crate::specs::Functions::function_of))]
pub fn function_of(args: &Args, perm: u8) -> Function
    requires { perm < length (row_functions args.now) }
    ensures { function_of args.now perm ≡ Some result }
{
    row(args)[usize::from(perm)]
}
