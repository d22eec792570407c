//! What a file of names says of a node, and what is wrong with it.
ghost use Rattle.std.specs.Prelude.{◌≡◌, ◌+◌, ◌≤◌, length};
ghost use Rattle.std.specs.Option.{option_copied};
ghost use Rattle.std.specs.List.{list_any};
ghost use Rattle.named_form.specs.File.{names_id, name_of, line_fault, is_named_again, lines_of, fault_from, fault_of};

use crate::fault::{NamesFault, NamesFaultKind};
use crate::lines::{cut, id_in, is_name, is_remark, name_in, said_in};

/// Whether a line names this node.
fn names_id(id: u32, line: &[u8]) -> bool
    ensures { result ≡ names_id id line.now }
{
    let said = said_in(line);
    !is_remark(said) && id_in(said) == Some(id)
}

/// The name of a node in a file: that of the first line which names it.
pub(crate) fn name_of(id: u32, file: &[u8]) -> Option<&[u8]>
    ensures { option_copied result ≡ name_of id (lines_of file.now) }
{
    let mut rest = file;
    while let Some((line, behind)) = cut(rest) {
        if names_id(id, line) {
            return Some(name_in(said_in(line)));
        }
        rest = behind;
    }
    if names_id(id, rest) {
        Some(name_in(said_in(rest)))
    } else {
        None
    }
}

/// Whether a line of a text names this node.
fn is_named(id: u32, text: &[u8]) -> bool
    ensures { result ≡ list_any (names_id id) (lines_of text.now) }
{
    let mut rest = text;
    while let Some((line, behind)) = cut(rest) {
        if names_id(id, line) {
            return true;
        }
        rest = behind;
    }
    names_id(id, rest)
}

/// What is wrong with a line by itself.
fn line_fault(line: &[u8]) -> Option<NamesFaultKind>
    ensures { result ≡ line_fault line.now }
{
    let said = said_in(line);
    if is_remark(said) {
        return None;
    }
    match id_in(said) {
        Some(0..=62) if is_name(name_in(said)) => None,
        Some(0..=62) => Some(NamesFaultKind::BadName),
        _ => Some(NamesFaultKind::BadId),
    }
}

/// Whether a line of the text behind a line names the node that it names.
fn is_named_again(line: &[u8], behind: &[u8]) -> bool
    ensures { result ≡ is_named_again line.now (lines_of behind.now) }
{
    let said = said_in(line);
    if is_remark(said) {
        return false;
    }
    match id_in(said) {
        Some(id) => is_named(id, behind),
        None => false,
    }
}

/// What is wrong with a file of names: with its first line that has a fault, by itself or by a later one.
pub(crate) fn fault_of(file: &[u8]) -> Option<NamesFault>
    requires { length file.now ≤ 1048576 }
    ensures { result ≡ fault_of file.now }
{
    let mut number = 1;
    let mut rest = file;
    while let Some((line, behind)) = cut(rest) {
        if let Some(kind) = line_fault(line) {
            return Some(NamesFault { line: number, kind });
        }
        if is_named_again(line, behind) {
            let kind = NamesFaultKind::Twice;
            return Some(NamesFault { line: number, kind });
        }
        number += 1;
        rest = behind;
    }
    match line_fault(rest) {
        Some(kind) => Some(NamesFault { line: number, kind }),
        None => None,
    }
}
