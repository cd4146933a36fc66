// How a run ends where a file does not read, a put fails or memory runs out: each fault by itself, so that `?` passes it on.
ghost use Rattle.std.specs.Prelude.{◌≡◌};
ghost use Rattle.endings.specs.declared.ending.Ending.TheVariants.{NoMemory, NotWritten};
ghost use Rattle.endings.specs.Faults.{aerodrome_ending, flights_ending, events_ending, certificate_ending, trials_ending};
ghost use Rattle.endings.specs.Faults.{plan_ending, begin_ending};

use crate::{Ending, FilesFault};
use aerodrome_file::AeroFault;
use certificate::CertFault;
use cps_outside::WriteFailed;
use event_log::{LogCause, LogFault};
use flight_file::{FlightCause, FlightFault};
use plan_file::PlanFault;
use situations::BeginFault;
use std::alloc::AllocError;
use trial_file::{TrialCause, TrialFault};

impl From<AllocError> for Ending {
    ghost from_gives = { λ _ ending. ending ≡ NoMemory };

    fn from(_: AllocError) -> Self {
        Ending::NoMemory
    }
}

impl From<WriteFailed> for Ending {
    ghost from_gives = { λ _ ending. ending ≡ NotWritten };

    fn from(_: WriteFailed) -> Self {
        Ending::NotWritten
    }
}

impl From<AeroFault> for Ending {
    ghost from_gives = { λ fault ending. ending ≡ aerodrome_ending fault };

    fn from(fault: AeroFault) -> Self {
        match fault {
            AeroFault::Memory => Ending::NoMemory,
            fault => Ending::Refused(FilesFault::Aerodrome(fault)),
        }
    }
}

impl From<FlightFault> for Ending {
    ghost from_gives = { λ fault ending. ending ≡ flights_ending fault };

    fn from(fault: FlightFault) -> Self {
        match fault.cause {
            FlightCause::Memory => Ending::NoMemory,
            _ => Ending::Refused(FilesFault::Flights(fault)),
        }
    }
}

impl From<LogFault> for Ending {
    ghost from_gives = { λ fault ending. ending ≡ events_ending fault };

    fn from(fault: LogFault) -> Self {
        match fault.cause {
            LogCause::Memory => Ending::NoMemory,
            _ => Ending::Refused(FilesFault::Events(fault)),
        }
    }
}

impl From<CertFault> for Ending {
    ghost from_gives = { λ fault ending. ending ≡ certificate_ending fault };

    fn from(fault: CertFault) -> Self {
        match fault {
            CertFault::Memory => Ending::NoMemory,
            fault => Ending::Refused(FilesFault::Certificate(fault)),
        }
    }
}

impl From<TrialFault> for Ending {
    ghost from_gives = { λ fault ending. ending ≡ trials_ending fault };

    fn from(fault: TrialFault) -> Self {
        match fault.cause {
            TrialCause::Memory => Ending::NoMemory,
            _ => Ending::Refused(FilesFault::Trials(fault)),
        }
    }
}

impl From<PlanFault> for Ending {
    ghost from_gives = { λ fault ending. ending ≡ plan_ending fault };

    fn from(fault: PlanFault) -> Self {
        match fault {
            PlanFault::Memory => Ending::NoMemory,
            fault => Ending::Refused(FilesFault::Plan(fault)),
        }
    }
}

impl From<BeginFault> for Ending {
    ghost from_gives = { λ fault ending. ending ≡ begin_ending fault };

    fn from(fault: BeginFault) -> Self {
        match fault {
            BeginFault::Opening(fault) => Ending::Refused(FilesFault::Opening(fault)),
            BeginFault::Memory => Ending::NoMemory,
        }
    }
}
