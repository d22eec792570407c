//! Laws of made scripts.
ghost use Rattle.script_made.specs.MadeRead.{MadeIsRead, MadeIsSplit};
ghost use Rattle.script_made.specs.MadeValid.{MadeScriptsRunThrough, MadeScriptsHaveNoFault};

/// A law: the lines of a script that is made are what stands between line feeds, and each is read as
/// its command.
pub fn made_is_read()
    ensures read { MadeIsRead }
    ensures split { MadeIsSplit }
{}

/// A law: the run of a script that is made comes to its end, so what it tells is a text.
pub fn made_scripts_have_no_fault()
    ensures run { MadeScriptsRunThrough }
    ensures told { MadeScriptsHaveNoFault }
{}
