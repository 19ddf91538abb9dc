// What a line shows.
ghost use Rattle.std.specs.Prelude.{◌≡◌, None, false};

use cert_check::Failure;

/// What fails first, once a line has come, and else what was found early of the table that is read: its place after the rules. Of a
/// line of a table also whether it is seen never to fall.
#[derive(Clone, Copy)]
pub(crate) struct Finding {
    pub(crate) failed: Option<Failure>,
    pub(crate) late: Option<u64>,
    pub(crate) grows: bool,
}

impl Finding {
    /// The finding on a line outside the tables: what fails first, and nothing that was found early.
    pub(crate) fn of(failed: Option<Failure>) -> Finding
        ensures { result ≡ record { failed = failed; late = None; grows = false } }
    {
        Finding {
            failed,
            late: None,
            grows: false,
        }
    }
}

/// What fails first of the rules that a line of a table makes known, and whether the line is seen never to fall.
#[derive(Clone, Copy)]
pub(crate) struct RulesJudged {
    pub(crate) failed: Option<Failure>,
    pub(crate) grows: bool,
}
