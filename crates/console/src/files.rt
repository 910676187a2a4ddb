// The files that a session leaves.
use crate::arguments::Argument;
use console_files::Reported;
use console_trace::seen::Counts;
use console_turns::Session;
use std::fs::File;

#[derive(Drop)]
pub struct Files {
    log: Option<File>,
    ram: Option<File>,
    seen: Option<File>,
    report: Option<File>,
}

impl Files {
    // Makes those that the arguments name, and says of each that cannot be made why.
    pub fn open(rt: HostRuntime) -> Result<Files, Reported> {
        let log = Argument::Log.open(rt);
        let ram = Argument::RamOut.open(rt);
        let seen = Argument::Seen.open(rt);
        let report = Argument::Report.open(rt);
        Ok(Files {
            log: log?,
            ram: ram?,
            seen: seen?,
            report: report?,
        })
    }

    // Writes all but the report, whose file it answers.
    pub fn keep(
        self,
        rt: HostRuntime,
        s: Session,
        ram: &[u8],
        log: &[u8],
        counts: &Counts,
    ) -> Result<Option<File>, Reported> {
        let used = console_files::within(s.state.progress.log, log);
        console_files::keep(rt, self.log, b"the log", &log[..used])?;
        console_files::keep(rt, self.ram, b"RAM", ram)?;
        crate::watch::keep_counts(rt, self.seen, counts)?;
        Ok(self.report)
    }
}
