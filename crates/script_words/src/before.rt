//! What the lines before a line say.
ghost use Rattle.std.specs.Prelude.{◌≡◌, ◌++◌, OnOk, IfOk, codes};
ghost use Rattle.std.specs.Str.Lines.{strip_carriage_return};
ghost use Rattle.script_words.specs.Before.{words_in, is_node_line, declares, ports_of, names_in, is_port};

use crate::text::{Text, same, word_at, words_of};
use script_lines::number_of;
use std::alloc::Global;
use topology_stack::OutOfMemory;

/// A line without the carriage return at its end.
pub(crate) fn without_return(line: &[u8]) -> &[u8]
    ensures { result.now ≡ strip_carriage_return line.now }
{
    match line {
        [front @ .., b'\r'] => front,
        _ => line,
    }
}

/// The words of a line.
pub(crate) fn words_in<'a>(alloc: Global, line: &Text<'a>) -> Result<Vec<Text<'a>>, OutOfMemory>
    ensures { IfOk result (λ words. words.items ≡ words_in line.now) }
{
    words_of(alloc, without_return(line.as_bytes()))
}

/// Whether words are those of a `node` line.
pub(crate) fn is_node_line(words: &[Text]) -> bool
    ensures { result ≡ is_node_line words.now }
{
    same(word_at(words, 0), b"node")
}

/// Whether words declare a node with this name.
pub(crate) fn declares(name: &[u8], words: &[Text]) -> bool
    ensures { result ≡ declares name.now words.now }
{
    is_node_line(words) && word_at(words, 1) == name
}

/// The number of ports that these lines declare for the node with a name.
pub(crate) fn ports_of(
    alloc: Global,
    lines: &[Text],
    name: &[u8],
) -> Result<Option<u32>, OutOfMemory>
    ensures { IfOk result (λ ports. ports ≡ ports_of lines.now name.now) }
{
    for line in lines {
        let words = words_in(alloc, line)?;
        if declares(name, words.as_slice()) {
            return Ok(number_of(word_at(words.as_slice(), 2)));
        }
    }
    Ok(None)
}

/// Appends a blank and a name.
fn put_name(out: &mut Vec<u8>, name: &[u8]) -> Result<(), OutOfMemory>
    ensures { OnOk result (out.new.items ≡ out.old.items ++ (codes " " ++ name.now)) }
{
    out.extend_from_slice(b" ")?;
    out.extend_from_slice(name)?;
    Ok(())
}

/// Appends the names that these lines declare.
pub(crate) fn put_names(alloc: Global, out: &mut Vec<u8>, lines: &[Text]) -> Result<(), OutOfMemory>
    ensures { OnOk result (out.new.items ≡ out.old.items ++ names_in lines.now) }
{
    for line in lines {
        let words = words_in(alloc, line)?;
        if is_node_line(words.as_slice()) {
            put_name(out, word_at(words.as_slice(), 1))?;
        }
    }
    Ok(())
}

/// Whether the number of a port is one of so many.
pub(crate) fn is_port(word: &[u8], ports: Option<u32>) -> bool
    ensures { result ≡ is_port word.now ports }
{
    number_of(word).unwrap_or(0) < ports.unwrap_or(0)
}
