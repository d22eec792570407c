//! The lines of acts and holds.
ghost use Rattle.std.specs.Prelude.{◌≡◌, ◌++◌, codes, OnOk};
ghost use Rattle.script_text.specs.ReportText.{numbered};
ghost use Rattle.script_trace.specs.Trace.{choice, command_words, command_line};

use script_lines::Command;
use script_text::{Name, OutOfMemory, put_numbered};

/// Appends a number, or a dash for none.
fn put_choice(out: &mut Vec<u8>, number: Option<u8>) -> Result<(), OutOfMemory>
    ensures { OnOk result (out.new.items ≡ out.old.items ++ choice number) }
{
    match number {
        None => out.extend_from_slice(b" -"),
        Some(number) => put_numbered(out, b" ", u64::from(number)),
    }
}

/// Appends the name and the port of an end.
fn put_end(out: &mut Vec<u8>, name: &Name, port: u32) -> Result<(), OutOfMemory>
    ensures { OnOk result (out.new.items ≡ out.old.items ++ (name.now ++ numbered (codes " ") port)) }
{
    out.extend_from_slice(name.as_bytes())?;
    put_numbered(out, b" ", u64::from(port))
}

/// Appends an act or a hold in a script's words.
fn put_words(out: &mut Vec<u8>, command: &Command) -> Result<(), OutOfMemory>
    ensures { OnOk result (out.new.items ≡ out.old.items ++ command_words command.now) }
{
    match command {
        Command::Plug {
            a,
            a_port,
            b,
            b_port,
        } => {
            out.extend_from_slice(b" plug ")?;
            put_end(out, a, *a_port)?;
            out.push(b' ')?;
            put_end(out, b, *b_port)
        }
        Command::Pull { name, port } => {
            out.extend_from_slice(b" pull ")?;
            put_end(out, name, *port)
        }
        Command::Reset { name } => {
            out.extend_from_slice(b" reset ")?;
            out.extend_from_slice(name.as_bytes())
        }
        Command::Hold { name, port, turns } => {
            out.extend_from_slice(b" hold ")?;
            put_end(out, name, *port)?;
            put_numbered(out, b" ", u64::from(*turns))
        }
        Command::Config { name, root_id, gap } => {
            out.extend_from_slice(b" config ")?;
            out.extend_from_slice(name.as_bytes())?;
            put_choice(out, *root_id)?;
            put_choice(out, *gap)
        }
        _ => Ok(()),
    }
}

/// Appends the line of an act or a hold: `turn T` and the command.
#[tactic(auto, unfolding(crate::specs::Trace::command_line))]
pub fn put_command(out: &mut Vec<u8>, turn: u32, command: &Command) -> Result<(), OutOfMemory>
    ensures { OnOk result (out.new.items ≡ out.old.items ++ command_line turn command.now) }
{
    put_numbered(out, b"turn ", u64::from(turn))?;
    put_words(out, command)?;
    out.push(b'\n')?;
    Ok(())
}
