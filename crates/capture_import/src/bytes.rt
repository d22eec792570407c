//! The bytes that an input names.
ghost use Rattle.std.specs.Prelude.{◌≡◌, ◌<◌, true, length, IfOk, OnOk};
ghost use Rattle.quad_lanes.specs.Pairs.{quads_of};
ghost use Rattle.capture_import.specs.Answer.{IfFault};
ghost use Rattle.capture_import.specs.Import.{has_behind, without_feed, NamesBytes, IsBadText, are_quadlets, IsCut};
ghost use Rattle.capture_import.specs.Text.{data_of_text, container_of, within_braces, unmarked};
ghost use Rattle.capture_import.specs.declared.taken.Container.{Container};

use crate::fault::{FaultKind, ImportStop, fault};
use crate::lines::put_lines;
use crate::taken::{Container, TextForm};
use crate::text::{container_of, is_one_list, unmarked, within_braces};
use crate::words::{begins, put_words};
use quad_lanes::{QuadList, quads_of};
use std::alloc::Global;
use topology_stack::OutOfMemory;

/// Whether bytes end so, behind whole quadlets.
fn has_behind(end: &[u8], bytes: &[u8]) -> bool
    requires { length end.now < 4 }
    ensures { result ≡ has_behind end.now bytes.now }
{
    bytes.len() % 4 == end.len() && begins(end, &bytes[bytes.len() - end.len()..])
}

/// Bytes without the end of a line behind whole quadlets.
fn without_feed(bytes: &[u8]) -> &[u8]
    ensures { result.now ≡ without_feed bytes.now }
{
    if has_behind(b"\n", bytes) {
        &bytes[..bytes.len() - 1]
    } else if has_behind(b"\r\n", bytes) {
        &bytes[..bytes.len() - 2]
    } else {
        bytes
    }
}

/// The bytes of an input that stand as they are.
fn own_bytes(alloc: Global, input: &[u8]) -> Result<Vec<u8>, OutOfMemory>
    ensures { IfOk result (λ bytes. bytes.items ≡ without_feed input.now) }
{
    let mut bytes = Vec::new(alloc);
    bytes.extend_from_slice(without_feed(input))?;
    Ok(bytes)
}

/// The data of a text.
fn data_of(alloc: Global, form: TextForm, text: &[u8]) -> Result<Vec<u8>, OutOfMemory>
    ensures { IfOk result (λ kept. kept.items ≡ data_of_text form text.now) }
{
    let mut data = Vec::new(alloc);
    put_lines(&mut data, form, text)?;
    Ok(data)
}

/// The bytes that a text of such a form names, or why it names none.
fn text_bytes(alloc: Global, form: TextForm, input: &[u8]) -> Result<Vec<u8>, ImportStop>
    requires { Container.Text form ≡ container_of input.now }
    ensures found { IfOk result (λ bytes.
        NamesBytes (Container.Text form) input.now bytes.items) }
    ensures refused { IfFault result (λ f. IsBadText (Container.Text form) input.now f) }
{
    let data = data_of(alloc, form, unmarked(input))?;
    let mut bytes = Vec::new(alloc);
    if !put_words(&mut bytes, within_braces(&data))? {
        return Err(fault(bytes.len() / 4, FaultKind::BadWord));
    }
    if !is_one_list(&data) {
        return Err(fault(bytes.len() / 4, FaultKind::SecondList));
    }
    Ok(bytes)
}

#[tactic(auto, unfolding(line_words::specs::Words::words_by))]
/// The bytes that an input names, or why it names none.
pub(crate) fn named_bytes(
    alloc: Global,
    container: Container,
    input: &[u8],
) -> Result<Vec<u8>, ImportStop>
    requires { container ≡ container_of input.now }
    ensures found { IfOk result (λ bytes. NamesBytes container input.now bytes.items) }
    ensures refused { IfFault result (λ f. IsBadText container input.now f) }
{
    match container {
        Container::Bytes => Ok(own_bytes(alloc, input)?),
        Container::Text(form) => text_bytes(alloc, form, input),
    }
}

/// The quadlets of bytes, the highest byte of each first, or why they have none.
pub(crate) fn whole_quads(alloc: Global, bytes: &[u8]) -> Result<QuadList, ImportStop>
    ensures found { IfOk result (λ quads. quads ≡ quads_of bytes.now) }
    ensures whole { OnOk result (are_quadlets bytes.now ≡ true) }
    ensures refused { IfFault result (λ f. IsCut bytes.now f) }
{
    if bytes.is_empty() {
        return Err(fault(0, FaultKind::Empty));
    }
    if bytes.len() % 4 != 0 {
        return Err(fault(bytes.len() / 4, FaultKind::BadLength));
    }
    Ok(quads_of(alloc, bytes)?)
}
