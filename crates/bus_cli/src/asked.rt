//! What the program can be asked for, and how it answers.
ghost use Rattle.bus_cli.specs.Form.{Asks, IsUnread};
ghost use Rattle.bus_cli.specs.Answer.{AnswersForm};
ghost use Rattle.bus_cli.specs.codings.Reading.{AsksFewNodes, WantsMemory};
ghost use Rattle.bus_cli.specs.codings.Asked.{few_status, unread_alone, unread_status};

use crate::answer::{Answer, answer_of_itself, answer_to};
use crate::form::Form;
use crate::input::read_input;
use crate::rom::answer_to_rom;
use crate::script::{answer_to_advice, answer_to_make, answer_to_script};
use io_edges::{ReadStop, Source, read_all};
use std::alloc::Global;
use top_call::{Asked, MAX_INPUT};

impl Asked for Form {
    type Answer = Answer;

    ghost asks = { Asks };

    ghost answers = { AnswersForm };

    ghost is_unread = { IsUnread };

    ghost is_held = { AsksFewNodes };

    ghost wants_memory = { WantsMemory };

    fn of_words(words: &[String]) -> Option<Form> {
        Form::of_words(words)
    }

    fn read<S: Source>(self, alloc: Global, source: &mut S) -> Result<Answer, ReadStop> {
        match self {
            Form::Capture(form) => {
                let reading = read_input(alloc, form, source)?;
                Ok(answer_to(alloc, form, reading)?)
            }
            Form::Rom => {
                let rom = read_all(alloc, source, MAX_INPUT)?;
                Ok(answer_to_rom(alloc, &rom)?)
            }
            Form::Run => {
                let script = read_all(alloc, source, MAX_INPUT)?;
                Ok(answer_to_script(alloc, &script)?)
            }
            Form::Advice => {
                let bytes = read_all(alloc, source, MAX_INPUT)?;
                Ok(answer_to_advice(alloc, &bytes)?)
            }
            Form::Make { nodes, seed } => Ok(answer_to_make(alloc, nodes, seed)?),
            Form::OfItself(about) => Ok(answer_of_itself(alloc, about)?),
        }
    }

    ghost valid_or_refused = { few_status };

    ghost unread_is_valid = { unread_status };

    ghost unread_is_alone = { unread_alone };
}
