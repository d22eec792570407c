//! Laws of imports. Each function is a fact for the crates above, which call it.
ghost use Rattle.capture_import.specs.OneImport.{NoInputNamesTwoLists, NoInputIsNamedAndRefused, NoInputHasTwoFaults};

/// A law: no input names two lists, nor is it taken for two things; none that names a list is refused, and none is
/// refused for two faults.
pub fn one_import()
    ensures list { NoInputNamesTwoLists }
    ensures apart { NoInputIsNamedAndRefused }
    ensures fault { NoInputHasTwoFaults }
{}
