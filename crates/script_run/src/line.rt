//! The line of a script's fault.
ghost use Rattle.std.specs.Prelude.{◌≡◌, ◌≤◌, length};
ghost use Rattle.script_run.specs.Line.{kind_word, script_line};

use capture_reading::ShortText;
use script_lines::{Kind, ScriptFault};

/// The word of a kind of fault of a script. It has at most 20 bytes.
pub fn kind_word(kind: Kind) -> &'static str
    ensures word { result.now ≡ kind_word kind }
    ensures few { length result.now ≤ 20 }
{
    match kind {
        Kind::Word => "Word",
        Kind::Number => "Number",
        Kind::Name => "Name",
        Kind::Twice => "Twice",
        Kind::Late => "Late",
        Kind::TooManyNodes => "TooManyNodes",
        Kind::NoNode => "NoNode",
        Kind::NoPort => "NoPort",
        Kind::InUse => "InUse",
        Kind::SameNode => "SameNode",
        Kind::NotPlugged => "NotPlugged",
        Kind::Range => "Range",
        Kind::NotSettled => "NotSettled",
        Kind::NoManager => "NoManager",
        Kind::NotManager => "NotManager",
        Kind::TooManyTurns => "TooManyTurns",
        Kind::TooManyMaps => "TooManyMaps",
    }
}

/// The line of a script's fault: `refused line L KIND`.
#[tactic(auto, unfolding(crate::specs::Line::script_line))]
pub fn script_line(fault: ScriptFault) -> ShortText
    ensures { result ≡ script_line fault }
{
    let mut line = ShortText::new();
    line.put(b"refused line ");
    line.put_number(fault.line as usize);
    line.put(b" ");
    line.put(kind_word(fault.kind).as_bytes());
    line.put(b"\n");
    line
}
