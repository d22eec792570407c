//! The program `busview`: its forms over files and the system's streams.
#![tactic(auto)]

mod diff;
mod flawed;
mod help;
mod import;
mod named;
mod reset;
mod say;
mod words;

use bus_cli::{NO_FORM, NO_MEMORY};
use bus_view::{CaptureView, VIEW_HELP, VIEW_USAGE, ViewForm, view_main};
use capture_import::asks_import;
use diff::diff;
use diff_form::{DiffForm, diff_form};
use flawed::flawed;
use flawed_form::FlawedForm;
use import::import;
use io_edges::{ReadSource, WriteSink};
use log_import::reset_asked;
use named::named;
use named_form::{NamedForm, named_form};
use program_edges::{
    Call, FileCount, FileLines, FrontSink, FrontSource, PipeWriter, Program, WordsFault, run,
};
use reset::reset;
use reset_list::LogForm;
use say::{explain, say_hints};
use std::io::{Read, Write};
use std::process::ExitCode;

/// What the program can be asked for.
#[derive(Debug, Drop)]
enum Form {
    /// A form of the top call.
    View(ViewForm),
    /// `flawed`: a relation answers it, not one text, so it stands beside the top call.
    Flawed(FlawedForm),
    /// `diff`: what differs between two captures. It has two inputs, so it stands beside the top call.
    Diff(DiffForm),
    /// `tree` and `dot` with names. They have two inputs, so they stand beside the top call.
    Named(NamedForm),
    /// `import`: the capture of what isn't one. Its answer is a capture and what the input was taken for, so it stands
    /// beside the top call.
    Import,
    /// `import --reset=K`: the capture of the reset with this number in a log, from 1. It stands beside the top call for
    /// the same reason.
    Reset(u64),
}

struct Busview;

/// Answers a form of the top call over one input, and says on standard error what has to be said of it.
fn view_into<R: Read + Drop, W: Write>(
    rt: &HostRuntime,
    words: &[String],
    form: &ViewForm,
    input: R,
    output: &mut W,
) -> u8 {
    let mut source = FrontSource::new(rt.alloc(), ReadSource::new(input));
    let mut sink = FrontSink::new(rt.alloc(), WriteSink::new(output));
    let status = view_main(rt.alloc(), words, &mut source, &mut sink);
    say_hints(rt, form, status, source.front(), sink.front());
    status
}

/// Answers a form of the top call over one of several inputs with lines of JSON, each of which names this file.
fn view_lines<R: Read + Drop, W: Write>(
    rt: &HostRuntime,
    words: &[String],
    form: &ViewForm,
    file: &str,
    input: R,
    output: &mut W,
) -> u8 {
    match FileLines::new(rt.alloc(), file, output) {
        Ok(mut lines) => view_into(rt, words, form, input, &mut lines),
        Err(_) => NO_MEMORY,
    }
}

/// Whether a form answers with lines of JSON over files of which there may be several.
fn has_json_lines(form: &ViewForm) -> bool {
    matches!(
        form,
        ViewForm::Resets(LogForm::Json(_)) | ViewForm::Nosy(LogForm::Json(_))
    )
}

/// Answers a form of the top call over one input, which messages call by this name. It is one of so many files.
fn view<R: Read + Drop>(
    rt: &HostRuntime,
    words: &[String],
    form: &ViewForm,
    files: usize,
    name: &str,
    input: R,
) -> u8 {
    let mut output = PipeWriter::new(rt.stdout());
    let status = if files > 1 && has_json_lines(form) {
        view_lines(rt, words, form, name, input, &mut output)
    } else {
        view_into(rt, words, form, input, &mut output)
    };
    if !output.is_broken() {
        explain(rt, form, status, name);
    }
    status
}

impl Program for Busview {
    type Form = Form;

    fn name() -> &'static str {
        "busview"
    }

    fn usage() -> &'static str {
        VIEW_USAGE
    }

    fn help() -> &'static str {
        VIEW_HELP
    }

    fn own_words(command: &str) -> usize {
        match command {
            "capture" => 2,
            "script" => 3,
            "flawed" => 4,
            _ => 1,
        }
    }

    fn form_of(words: &[String]) -> Option<Form> {
        if let Some(form) = FlawedForm::of_words(words) {
            return Some(Form::Flawed(form));
        }
        if let Some(form) = diff_form(words) {
            return Some(Form::Diff(form));
        }
        if let Some(form) = named_form(words) {
            return Some(Form::Named(form));
        }
        if asks_import(words) {
            return Some(Form::Import);
        }
        if let Some(number) = reset_asked(words) {
            return Some(Form::Reset(u64::from(number)));
        }
        Some(Form::View(ViewForm::of_words(words)?))
    }

    fn files_of(form: &Form) -> FileCount {
        match form {
            Form::View(ViewForm::Script { .. } | ViewForm::OfItself(_)) | Form::Flawed(_) => {
                FileCount::None
            }
            Form::View(
                ViewForm::Capture(CaptureView::Packets | CaptureView::Tree, _)
                | ViewForm::Resets(_)
                | ViewForm::Nosy(_),
            ) => FileCount::Many,
            Form::Diff(_) => FileCount::Two,
            Form::Named(_) => FileCount::Named,
            Form::View(_) | Form::Import | Form::Reset(_) => FileCount::One,
        }
    }

    fn writes_bytes(form: &Form) -> bool {
        matches!(
            form,
            Form::Flawed(_) | Form::Import | Form::Reset(_) | Form::View(ViewForm::ListOf(_))
        )
    }

    fn names_files(form: &Form) -> bool {
        match form {
            Form::View(form) => has_json_lines(form),
            _ => false,
        }
    }

    fn fault_of(words: &[String]) -> WordsFault<'_> {
        words::fault_of(words)
    }

    fn options_of(command: &str) -> &'static str {
        help::options_of(command)
    }

    fn example_of(command: &str) -> &'static str {
        help::example_of(command)
    }

    fn answer<R: Read + Drop>(rt: &HostRuntime, call: &Call<'_, Form>, name: &str, input: R) -> u8 {
        match &call.form {
            Form::View(form) => view(rt, call.words, form, call.files.len(), name, input),
            Form::Flawed(form) => flawed(rt, *form),
            Form::Import => import(rt, name, input),
            Form::Reset(number) => reset(rt, *number, name, input),
            // A call with other than two files isn't answered.
            Form::Diff(_) | Form::Named(_) => NO_FORM,
        }
    }

    fn answer_two<R: Read + Drop, Q: Read + Drop>(
        rt: &HostRuntime,
        call: &Call<'_, Form>,
        names: (&str, &str),
        first: R,
        second: Q,
    ) -> u8 {
        match (&call.form, call.files) {
            (Form::Diff(form), [old_file, new_file]) => {
                let files = (old_file.as_str(), new_file.as_str());
                diff(rt, *form, files, names, first, second)
            }
            (Form::Named(form), _) => named(rt, *form, names, first, second),
            // No other form takes two files.
            _ => NO_FORM,
        }
    }
}

fn main(rt: HostRuntime) -> ExitCode {
    run::<Busview>(&rt)
}
