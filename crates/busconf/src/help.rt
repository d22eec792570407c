//! What the help of a command says beside its line.

/// An example of a command, as it stands below `Example: `.
pub(crate) fn example_of(command: &str) -> &'static str {
    match command {
        "run" => "busconf run hub.script",
        "advice" => "busconf advice ring.script",
        "read" => "busconf read hub.capture",
        "read95" => "busconf read95 hub.capture",
        "maps" => "busconf maps hub.capture",
        "rom" => "busconf rom my.rom",
        "make" => "busconf make 5 1",
        _ => "busconf --help",
    }
}
