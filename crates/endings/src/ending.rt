use aerodrome_file::AeroFault;
use certificate::CertFault;
use event_log::LogFault;
use flight_file::FlightFault;
use plan_file::PlanFault;
use situations::OpeningFault;
use trial_file::TrialFault;

/// What a command answers once its text is written.
#[derive(Clone, Copy)]
pub enum Answer {
    /// The last plan is a schedule.
    Scheduled,
    /// The last plan is none.
    Infeasible,
    /// The certificate was printed.
    Certified,
    /// The certificate holds.
    Accepted,
    /// The certificate was judged and does not hold.
    Rejected,
    /// The outcomes of the trials were printed.
    Tried,
    /// Nothing was found in the plan.
    Clean,
    /// The plan breaks rules.
    Broken,
    /// The plan file says that there is no plan.
    Claimed,
}

/// Why the files are not taken.
#[derive(Clone, Copy)]
pub enum FilesFault {
    /// The aerodrome file does not read as one: its first fault.
    Aerodrome(AeroFault),
    /// The flight file does not read as one: its first fault.
    Flights(FlightFault),
    /// The event log does not read as one: its first fault.
    Events(LogFault),
    /// The certificate does not read as one: its first fault.
    Certificate(CertFault),
    /// The trial file does not read as one: its first fault.
    Trials(TrialFault),
    /// The plan file does not read as one: its first fault.
    Plan(PlanFault),
    /// They read, and open no situation.
    Opening(OpeningFault),
}

/// How a run ends.
#[derive(Clone, Copy)]
pub enum Ending {
    /// The text was written whole.
    Answered(Answer),
    /// The words fit no command.
    Misused,
    /// All files were loaded, and they are not taken.
    Refused(FilesFault),
    /// The load of this number, from 1, failed.
    NotLoaded(u32),
    /// A put failed.
    NotWritten,
    /// The file of this number, from 1, is too long.
    TooLong(u32),
    /// Memory ran out.
    NoMemory,
}
