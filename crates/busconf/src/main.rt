//! The program `busconf`: its forms over files and the system's streams.
#![tactic(auto)]

mod help;
mod say;
mod words;

use bus_cli::{Form, HELP, REFUSED, USAGE, bus_main};
use io_edges::{ReadSource, WriteSink};
use program_edges::{
    Call, FileCount, FrontSink, FrontSource, PipeWriter, Program, WordsFault, run,
};
use say::{explain, say_hint, say_refusal};
use std::io::{Read, Write};
use std::process::ExitCode;
use words::make_fault;

struct Busconf;

/// Answers a call over one input by the top call, and says on standard error what a refused input looks like.
fn answer_into<R: Read + Drop, W: Write>(
    rt: &HostRuntime,
    call: &Call<'_, Form>,
    input: R,
    output: &mut W,
) -> u8 {
    let mut source = FrontSource::new(rt.alloc(), ReadSource::new(input));
    let mut sink = FrontSink::new(rt.alloc(), WriteSink::new(output));
    let status = bus_main(rt.alloc(), call.words, &mut source, &mut sink);
    if status == REFUSED {
        say_refusal(rt, call.form, sink.front());
        say_hint(rt, call.form, source.front());
    }
    status
}

impl Program for Busconf {
    type Form = Form;

    fn name() -> &'static str {
        "busconf"
    }

    fn usage() -> &'static str {
        USAGE
    }

    fn help() -> &'static str {
        HELP
    }

    fn own_words(command: &str) -> usize {
        match command {
            "make" => 3,
            _ => 1,
        }
    }

    fn form_of(words: &[String]) -> Option<Form> {
        Form::of_words(words)
    }

    fn files_of(form: &Form) -> FileCount {
        match form {
            Form::Capture(_) | Form::Rom => FileCount::Many,
            Form::Run | Form::Advice => FileCount::One,
            Form::Make { .. } | Form::OfItself(_) => FileCount::None,
        }
    }

    fn writes_bytes(_form: &Form) -> bool {
        false
    }

    fn fault_of(words: &[String]) -> WordsFault<'_> {
        match words {
            [] => WordsFault::NoForm,
            [word, numbers @ ..] if word.as_str() == "make" => make_fault(numbers),
            [word, ..] => WordsFault::UnknownCommand {
                program: "busconf",
                word: word.as_str(),
            },
        }
    }

    fn options_of(_command: &str) -> &'static str {
        ""
    }

    fn example_of(command: &str) -> &'static str {
        help::example_of(command)
    }

    fn answer<R: Read + Drop>(rt: &HostRuntime, call: &Call<'_, Form>, name: &str, input: R) -> u8 {
        let mut output = PipeWriter::new(rt.stdout());
        let status = answer_into(rt, call, input, &mut output);
        if !output.is_broken() {
            explain(rt, status, name);
        }
        status
    }
}

fn main(rt: HostRuntime) -> ExitCode {
    run::<Busconf>(&rt)
}
