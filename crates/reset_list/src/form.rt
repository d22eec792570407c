//! How the resets of a log or a dump are shown.
ghost use Rattle.std.specs.Prelude.{◌≡◌};
ghost use Rattle.reset_list.specs.Form.{standard_of};

use self_id::Standard;

/// How the resets of a log or a dump are shown, by a standard.
#[derive(Clone, Copy, Debug, PartialEq, Eq)]
pub enum LogForm {
    /// For people: a drawing of the bus, and what changed.
    Text(Standard),
    /// For people: one line for each reset, and behind a log which ports lost their children how often.
    Short(Standard),
    /// For programs: a line of JSON for each reset.
    Json(Standard),
}

impl LogForm {
    /// The standard by which self-ID packets are read.
    pub fn standard(self) -> Standard
        ensures { result ≡ standard_of self }
    {
        match self {
            LogForm::Text(standard) | LogForm::Short(standard) | LogForm::Json(standard) => {
                standard
            }
        }
    }
}
