//! Logs and dumps, which are written as they come.
ghost use Rattle.std.specs.Prelude.{◌≡◌, ◌⊎◌};
ghost use Rattle.self_id.specs.declared.standard.Standard.{Standard};
ghost use Rattle.bus_json.specs.Lines.{WritesJsonLines};
ghost use Rattle.reset_list.specs.declared.form.LogForm.{LogForm};
ghost use Rattle.nosy_dump.specs.Dump.{IsBegun};
ghost use Rattle.bus_view.specs.Log.{IsLogView, IsDumpView, IsLogBegun, ShowsAsItComes};
ghost use Rattle.bus_view.specs.codings.Log.{log_status};

use io_edges::{Sink, Source};
use nosy_dump::{dumps_have_one_text, show_dump};
use reset_list::{LogForm, LogStop};
use reset_log::{logs_have_one_text, show_log};
use std::alloc::Global;
use top_call::{NO_MEMORY, READ_FAULT, REFUSED, TOO_LONG, VALID, WRITE_FAULT};

/// The status of a log or a dump that was shown.
fn status_shown(shown: Result<bool, LogStop>) -> u8
    ensures { result ≡ log_status shown }
{
    match shown {
        Ok(false) => VALID,
        Ok(true) => REFUSED,
        Err(LogStop::ReadFault) => READ_FAULT,
        Err(LogStop::WriteFault) => WRITE_FAULT,
        Err(LogStop::TooLong) => TOO_LONG,
        Err(LogStop::Memory(_)) => NO_MEMORY,
    }
}

/// Shows the resets of a log as it comes, and answers the status.
pub(crate) fn show_resets<S: Source, K: Sink>(
    alloc: Global,
    form: LogForm,
    source: &mut S,
    sink: &mut K,
) -> u8
    ensures shown { ShowsAsItComes S.left S.faults K.written K.faults K.surely_takes
        ((result ≡ 0) ⊎ (result ≡ 1)) (IsLogView form) (IsLogBegun form)
        result source.old source.new sink.old sink.new }
    ensures json { (standard : Standard) → form ≡ LogForm.Json standard →
        (result ≡ 0) ⊎ (result ≡ 1) → WritesJsonLines (K.written sink.old) (K.written sink.new) }
{
    logs_have_one_text();
    status_shown(show_log(alloc, form, source, sink))
}

/// Shows the resets of a dump as it comes, and answers the status.
pub(crate) fn show_nosy<S: Source, K: Sink>(
    alloc: Global,
    form: LogForm,
    source: &mut S,
    sink: &mut K,
) -> u8
    ensures shown { ShowsAsItComes S.left S.faults K.written K.faults K.surely_takes
        (result ≡ 0) (IsDumpView form) (IsBegun form)
        result source.old source.new sink.old sink.new }
    ensures json { (standard : Standard) → form ≡ LogForm.Json standard →
        (result ≡ 0) ⊎ (result ≡ 1) → WritesJsonLines (K.written sink.old) (K.written sink.new) }
{
    dumps_have_one_text();
    status_shown(show_dump(alloc, form, source, sink))
}
