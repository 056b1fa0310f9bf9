//! Why the system refuses something, as a person is told.

ghost use Rattle.std.specs.Prelude.{◌≡◌};
ghost use Rattle.kernel_program.specs.Told.{reason_words};

use std::io::{self, ErrorKind};

/// Why the system refuses something.
#[derive(Clone, Copy)]
pub(crate) enum Reason {
    /// There is no file of that name.
    NoSuchFile,
    /// It is a directory, and no file.
    IsDirectory,
    /// It isn't permitted.
    NoPermission,
    /// What was read isn't UTF-8.
    NotUtf8,
    /// The address is in use.
    InUse,
    /// There is no such address here.
    NoSuchAddress,
    /// There is no room.
    NoSpace,
    /// The file would be too large.
    TooLarge,
    /// Something else.
    Another,
}

impl Reason {
    /// That of an error of this kind.
    pub(crate) fn of_kind(kind: ErrorKind) -> Reason {
        match kind {
            ErrorKind::NotFound => Reason::NoSuchFile,
            ErrorKind::IsADirectory => Reason::IsDirectory,
            ErrorKind::PermissionDenied => Reason::NoPermission,
            ErrorKind::InvalidData => Reason::NotUtf8,
            ErrorKind::AddrInUse => Reason::InUse,
            ErrorKind::AddrNotAvailable => Reason::NoSuchAddress,
            ErrorKind::StorageFull => Reason::NoSpace,
            ErrorKind::FileTooLarge => Reason::TooLarge,
            _ => Reason::Another,
        }
    }

    /// That of a write that failed. None if nobody reads what is written.
    pub(crate) fn of_write(error: io::Error) -> Option<Reason> {
        let kind = error.kind();
        drop(error);
        match kind {
            ErrorKind::BrokenPipe => None,
            kind => Some(Reason::of_kind(kind)),
        }
    }

    /// The reason in words: those of the system, where it has any.
    pub(crate) fn words(self) -> &'static str
        ensures { result.now ≡ reason_words self }
    {
        match self {
            Reason::NoSuchFile => "No such file or directory",
            Reason::IsDirectory => "Is a directory",
            Reason::NoPermission => "Permission denied",
            Reason::NotUtf8 => "it is not UTF-8",
            Reason::InUse => "Address already in use",
            Reason::NoSuchAddress => "Cannot assign requested address",
            Reason::NoSpace => "No space left on device",
            Reason::TooLarge => "File too large",
            Reason::Another => "the system tells no plainer reason",
        }
    }
}
