//! What a run that was made is worth.
ghost use Rattle.std.specs.Prelude.{◌≡◌, ◌++◌, ◌∷◌, [], ◌<◌, ◌≤◌, length, take, drop, position, IfOk, IfSome, OnOk};
ghost use Rattle.script_text.specs.Summary.{is_feed, lines_of, is_report_line, is_node_line, from_last_report, without_nodes, summary};

use crate::feed::first_feed;
use std::alloc::Global;
use topology_stack::OutOfMemory;

/// The length of the first line of a text, with its line feed.
fn first_line_len(text: &[u8]) -> usize
    requires { 0 < length text.now }
    ensures some { 0 < result }
    ensures within { result ≤ length text.now }
    ensures first { lines_of text.now
        ≡ take result text.now ∷ lines_of (drop result text.now) }
{
    match first_feed(text) {
        Some(end) => end + 1,
        None => text.len(),
    }
}

/// The first line of a text, with its line feed, and what stands behind it.
fn cut_line(text: &[u8]) -> (&[u8], &[u8])
    requires { 0 < length text.now }
    ensures lines { lines_of text.now ≡ result.0.now ∷ lines_of result.1.now }
    ensures shorter { length result.1.now < length text.now }
{
    let end = first_line_len(text);
    (&text[..end], &text[end..])
}

/// Whether a line begins a report.
fn is_report_line(line: &[u8]) -> bool
    ensures { result ≡ is_report_line line.now }
{
    line.starts_with(b"report ")
}

/// Whether a line is that of a node.
fn is_node_line(line: &[u8]) -> bool
    ensures { result ≡ is_node_line line.now }
{
    line.starts_with(b"node ")
}

/// The text from its last line that begins a report, and nothing where no line does.
fn from_last_report(text: &[u8]) -> &[u8]
    ensures { lines_of result.now ≡ from_last_report (lines_of text.now) }
{
    let mut found: &[u8] = &[];
    let mut rest = text;
    while !rest.is_empty() {
        let (line, behind) = cut_line(rest);
        if is_report_line(line) {
            found = rest;
        }
        rest = behind;
    }
    found
}

/// Appends the lines of a text that aren't those of nodes.
fn put_without_nodes(out: &mut Vec<u8>, text: &[u8]) -> Result<(), OutOfMemory>
    ensures { OnOk result (out.new.items ≡ out.old.items ++ without_nodes (lines_of text.now)) }
{
    let mut rest = text;
    while !rest.is_empty() {
        let (line, behind) = cut_line(rest);
        if !is_node_line(line) {
            out.extend_from_slice(line)?;
        }
        rest = behind;
    }
    Ok(())
}

/// The lines of a text from its last line that begins with `report `, without those that begin with
/// `node `. Nothing where no line begins with `report `.
pub fn summary(alloc: Global, text: &[u8]) -> Result<Vec<u8>, OutOfMemory>
    ensures { IfOk result (λ lines. lines.items ≡ summary text.now) }
{
    let mut out = Vec::new(alloc);
    put_without_nodes(&mut out, from_last_report(text))?;
    Ok(out)
}
