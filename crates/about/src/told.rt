//! What a program says of itself.
ghost use Rattle.std.specs.Prelude.{◌≡◌, IfOk};
ghost use Rattle.about.specs.Told.{version_text, about_text};

use crate::asked::About;
use crate::{KIT, STANDARDS, VERSION};
use std::alloc::{AllocError, Global};

/// The lines of the version: that of the program with this name, the kit, and the standards.
fn version_text(alloc: Global, program: &str) -> Result<Vec<u8>, AllocError>
    ensures { IfOk result (λ text. text.items ≡ version_text program.now) }
{
    let mut text = Vec::from_slice(alloc, program.as_bytes())?;
    text.extend_from_slice(b" ")?;
    text.extend_from_slice(VERSION.as_bytes())?;
    text.extend_from_slice(b"\nkit ")?;
    text.extend_from_slice(KIT.as_bytes())?;
    text.extend_from_slice(b"\n")?;
    text.extend_from_slice(STANDARDS.as_bytes())?;
    text.extend_from_slice(b"\n")?;
    Ok(text)
}

/// What a program with this name and this help writes, where it is asked for something of itself.
pub fn about_text(
    alloc: Global,
    about: About,
    program: &str,
    help: &str,
) -> Result<Vec<u8>, AllocError>
    ensures { IfOk result (λ text. text.items ≡ about_text about program.now help.now) }
{
    match about {
        About::Help => Vec::from_slice(alloc, help.as_bytes()),
        About::Version => version_text(alloc, program),
    }
}
