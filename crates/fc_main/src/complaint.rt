// The line on standard error.
ghost use Rattle.std.specs.Prelude.{◌≡◌, option_map};
ghost use Rattle.fc_main.specs.Complaint.{complaint_of};

use fc_run::Status;

/// The line for a status other than Done.
pub(crate) fn complaint(status: Status) -> Option<&'static str>
    ensures { option_map (λ line. line.now) result ≡ complaint_of status }
{
    match status {
        Status::Done => None,
        Status::Usage => Some("usage: facets [--workers N] [--demo N]"),
        Status::Script => Some("facets: the script has a fault"),
        Status::Read => Some("facets: reading failed"),
        Status::Memory => Some("facets: no memory"),
        Status::Write => Some("facets: writing failed"),
    }
}
