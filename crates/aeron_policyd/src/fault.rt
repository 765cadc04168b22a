use crate::replies::RefusalText;
use channel_uri::Address;
use driver_script::RunFault;
use media_driver::{ElicitFault, MakeFault, PushFault, StartFault};
use message_words::{DecodeFault, WordFault};
use policy_answers::AskFault;
use policy_core::Verdict;
use program_parts::PartFault;
use service_doors::DoorFault;
use service_remote::RemoteFault;
use std::alloc::{AllocError, AllocFailed};
use std::io;
use std::process::ExitCode;
use stream_gaps::NotTaken;
use thiserror::Error;

/// The status after messages were lost, and those after them came.
const GAP: u8 = 3;

/// Why the program gave up.
#[derive(Clone, Copy, Debug, Error)]
pub enum Fault {
    /// It was said on standard error already.
    #[error("")]
    Said,
    #[error("cannot read file")]
    CannotRead(io::ErrorKind),
    #[error("it is no regular file")]
    NotRegular,
    #[error("somebody writes it: try again")]
    Written,
    #[error("{0}")]
    Run(RunFault),
    #[error("{0}")]
    Ask(AskFault),
    #[error("{0}")]
    Words(WordFault),
    #[error("{0}")]
    Bytes(DecodeFault),
    #[error("unknown kind: it is command, reply or datagram")]
    UnknownKind,
    #[error("{0}")]
    Make(MakeFault),
    #[error("{0}")]
    Start(StartFault),
    #[error("no clock")]
    NoClock,
    #[error("no thread")]
    NoThread,
    #[error("no client could attach: the driver has no free seat, or is stopped")]
    NoClient,
    #[error("queue full")]
    QueueFull,
    #[error("aeron:ipc reaches no other process")]
    Ipc,
    #[error("a spy reads its own driver alone")]
    Spy,
    #[error("no endpoint to join from")]
    NoEndpoint,
    #[error("too many to join")]
    ManyJoins,
    #[error("cannot open {0}")]
    CannotOpen(Address),
    #[error("{0}")]
    Refused(RefusalText),
    #[error("{0}")]
    Denied(Verdict),
    #[error("no subscriber")]
    NoSubscriber,
    #[error("back pressure")]
    BackPressure,
    #[error("{0}")]
    NotTaken(NotTaken),
    #[error("messages were lost")]
    Gap,
    #[error("message too long")]
    TooLongMessage,
    #[error("greatest position reached")]
    MaxPosition,
    #[error("the registry cannot be read right now: try again")]
    NoLook,
    #[error("client gone")]
    Closed,
    #[error("{0}")]
    Doors(DoorFault),
    #[error("{0}")]
    Remote(RemoteFault),
    #[error("no policy: name one with --policy, or a driver with --driver")]
    NoPolicy,
    #[error("--control needs a driver of this process")]
    OwnDriver,
}

impl Fault {
    pub const NO_MEMORY: Fault = Fault::Run(RunFault::NoMemory);

    pub const WRITE: Fault = Fault::Run(RunFault::Write);

    pub const READ: Fault = Fault::Run(RunFault::Read);

    /// The status with which the program ends by it.
    pub(crate) fn status(&self) -> ExitCode {
        match self {
            Fault::Gap => ExitCode::from(GAP),
            _ => ExitCode::FAILURE,
        }
    }
}

impl From<RunFault> for Fault {
    fn from(fault: RunFault) -> Fault {
        Fault::Run(fault)
    }
}

impl From<AskFault> for Fault {
    fn from(fault: AskFault) -> Fault {
        Fault::Ask(fault)
    }
}

impl From<WordFault> for Fault {
    fn from(fault: WordFault) -> Fault {
        match fault {
            WordFault::NoMemory => Fault::NO_MEMORY,
            _ => Fault::Words(fault),
        }
    }
}

impl From<DecodeFault> for Fault {
    fn from(fault: DecodeFault) -> Fault {
        match fault {
            DecodeFault::NoMemory => Fault::NO_MEMORY,
            _ => Fault::Bytes(fault),
        }
    }
}

impl From<MakeFault> for Fault {
    fn from(fault: MakeFault) -> Fault {
        Fault::Make(fault)
    }
}

impl From<ElicitFault> for Fault {
    fn from(fault: ElicitFault) -> Fault {
        match fault {
            ElicitFault::Full => Fault::ManyJoins,
        }
    }
}

impl From<StartFault> for Fault {
    fn from(fault: StartFault) -> Fault {
        Fault::Start(fault)
    }
}

impl<T: Drop> From<AllocFailed<T>> for Fault {
    fn from(_error: AllocFailed<T>) -> Fault {
        Fault::NO_MEMORY
    }
}

impl From<PushFault> for Fault {
    fn from(fault: PushFault) -> Fault {
        match fault {
            PushFault::QueueFull => Fault::QueueFull,
            PushFault::NoMemory => Fault::NO_MEMORY,
        }
    }
}

impl From<AllocError> for Fault {
    fn from(_error: AllocError) -> Fault {
        Fault::NO_MEMORY
    }
}

impl From<PartFault> for Fault {
    fn from(fault: PartFault) -> Fault {
        match fault {
            PartFault::NoMemory => Fault::NO_MEMORY,
            PartFault::Read => Fault::READ,
            PartFault::Write => Fault::WRITE,
            PartFault::TooLong => Fault::TooLongMessage,
            PartFault::NoThread => Fault::NoThread,
        }
    }
}

impl From<DoorFault> for Fault {
    fn from(fault: DoorFault) -> Fault {
        match fault {
            DoorFault::NoMemory => Fault::NO_MEMORY,
            _ => Fault::Doors(fault),
        }
    }
}

impl From<RemoteFault> for Fault {
    fn from(fault: RemoteFault) -> Fault {
        match fault {
            RemoteFault::Part(fault) => Fault::from(fault),
            RemoteFault::Gap => Fault::Gap,
            _ => Fault::Remote(fault),
        }
    }
}
