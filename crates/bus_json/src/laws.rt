//! Laws of the values of buses.
ghost use Rattle.bus_json.specs.Told.{ValuesTellTexts};

/// A law: buses with one value, and so with one line, have one text. So the line tells all that the text
/// tells: of each node its ID, its attributes but the delay, its slots and where they lead.
pub fn values_tell_texts()
    ensures { ValuesTellTexts }
{}
