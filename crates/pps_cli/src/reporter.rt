//! Failures and bad lines, reported.
ghost use Rattle.std.specs.Prelude.{◌≡◌, false};
ghost use Rattle.pps_types.specs.Device.{device_failed, device_inner};
ghost use Rattle.pps_jobs.specs.Faults.{status_of_failure};
ghost use Rattle.pps_cli.specs.Reports.{Reports, ReportsBadLine};

use pps_jobs::{Failure, Fault, write_report};
use pps_script::BadLines;
use pps_types::Device;
use std::io::Write;

/// Where failures and bad lines are reported. If that can't be written, nothing else changes.
#[derive(Drop)]
pub(crate) struct Reporter<E> {
    errors: Device<E>,
    on_terminal: bool,
}

impl<E: Write> Reporter<E> {
    /// Reports are written there, which may be a terminal.
    pub(crate) fn new(errors: E, on_terminal: bool) -> Reporter<E>
        ensures errors { device_inner result.errors ≡ errors }
        ensures failed { device_failed result.errors ≡ false }
        ensures terminal { result.on_terminal ≡ on_terminal }
    {
        Reporter {
            errors: Device::new(errors),
            on_terminal,
        }
    }

    /// Reports a failure in one line, and on a terminal in a second one that may help. It answers the exit status.
    pub(crate) fn report_failure(&mut self, failure: Failure<'_>) -> u8
        ensures status { result ≡ status_of_failure failure.entry }
        ensures written { Reports E.contents failure.entry self.old self.new }
    {
        let _ = write_report(failure, self.on_terminal, &mut self.errors);
        failure.status()
    }
}

/// Bad lines are reported one by one, with what a line looks like.
impl<E: Write> BadLines for Reporter<E> {
    ghost reports = { λ old line new. ReportsBadLine E.contents old line new };

    fn report(&mut self, line: u64) {
        let failure = Failure::Fault(Fault::BadLine { line });
        let _ = write_report(failure, true, &mut self.errors);
    }
}
