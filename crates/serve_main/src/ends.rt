// Why the program ends early.
ghost use Rattle.std.specs.Prelude.{◌≡◌};
ghost use Rattle.serve_main.specs.Statuses.{status_of};

use store_disk::OpenFault;
use talk_server::{ServeFault, status};
use turn_loop::TalkFault;

/// Why the program ends early.
#[derive(Drop)]
pub enum End {
    /// The words of the command line are not one path.
    Words,
    /// There was not enough memory for the words or the store's bytes.
    NoMemory,
    /// The store is no regular file that can be opened or made, synced and read.
    NoStore,
    /// Somebody else holds the store's lock.
    Held,
    /// The file at the store's path holds bytes that are no store's.
    NotAStore,
    /// The store is none of a server, or the talk was cut.
    Serve(ServeFault),
}

impl End {
    /// The status with which the program ends.
    pub fn status(&self) -> u8
        ensures { result ≡ status_of self.now }
    {
        match self {
            End::Words => 2,
            End::NoMemory => 5,
            End::NotAStore => 9,
            End::Held => 10,
            End::NoStore => 11,
            End::Serve(fault) => status(&Err(*fault)),
        }
    }
}

impl From<OpenFault> for End {
    ghost use Rattle.std.specs.Prelude.{◌≡◌};
    ghost use Rattle.serve_main.specs.Statuses.{unopened};

    ghost from_gives = { λ why end. end ≡ unopened why };

    fn from(fault: OpenFault) -> End {
        match fault {
            OpenFault::Held => End::Held,
            OpenFault::NotAStore => End::NotAStore,
            OpenFault::TooLong => End::Serve(ServeFault::TooLong),
            OpenFault::NoMemory => End::NoMemory,
            OpenFault::Failed(_) => End::NoStore,
        }
    }
}

impl From<TalkFault> for End {
    ghost use Rattle.std.specs.Prelude.{◌≡◌};
    ghost use Rattle.serve_main.specs.declared.ends.End.TheVariants as end;
    ghost use Rattle.talk_server.specs.declared.faults.ServeFault.TheVariants as serve;

    ghost from_gives = { λ why e. e ≡ end.Serve (serve.Talk why) };

    fn from(fault: TalkFault) -> End {
        End::Serve(ServeFault::Talk(fault))
    }
}
