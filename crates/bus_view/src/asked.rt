//! What the program can be asked for, and how it answers. Logs and dumps, which are written as they come,
//! are answered elsewhere.
ghost use Rattle.bus_view.specs.Form.{Asks, IsUnread};
ghost use Rattle.bus_view.specs.Answer.{IsView};
ghost use Rattle.bus_view.specs.ReadBack.{ReadsBack};
ghost use Rattle.bus_view.specs.codings.Asked.{few_status, unread_alone, unread_status};
ghost use Rattle.bus_view.specs.codings.Reading.{IsHeld};

use crate::answer::{View, view_all, view_of_itself, view_script};
use crate::form::ViewForm;
use io_edges::{ReadStop, Source};
use std::alloc::Global;
use top_call::Asked;

impl Asked for ViewForm {
    type Answer = View;

    ghost asks = { Asks };

    ghost answers = { IsView };

    ghost tells = { ReadsBack };

    ghost is_unread = { IsUnread };

    ghost is_held = { IsHeld };

    ghost wants_memory = { λ _ _ _. Unit {0} };

    fn of_words(words: &[String]) -> Option<ViewForm> {
        ViewForm::of_words(words)
    }

    fn read<S: Source>(self, alloc: Global, source: &mut S) -> Result<View, ReadStop> {
        match self {
            ViewForm::Script { nodes, seed } => Ok(view_script(alloc, nodes, seed)?),
            ViewForm::OfItself(about) => Ok(view_of_itself(alloc, about)?),
            form => view_all(alloc, form, source),
        }
    }

    ghost valid_or_refused = { few_status };

    ghost unread_is_valid = { unread_status };

    ghost unread_is_alone = { unread_alone };
}
