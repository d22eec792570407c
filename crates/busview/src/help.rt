//! What the help of a command says beside its line: its options, and an example.

/// What `--1995` does.
const BY_1995: &str = "\
--1995  reads self-ID packets by IEEE Std 1394-1995: up to 27 ports a node
";

/// The options of `tree` and `dot`.
const OF_TREE: &str = "\
--1995  reads self-ID packets by IEEE Std 1394-1995: up to 27 ports a node
--names  takes NAMES and CAPTURE: NAMES has a line ID NAME for each node to name
";

/// The options of `diff`.
const OF_DIFF: &str = "\
--1995  reads self-ID packets by IEEE Std 1394-1995: up to 27 ports a node
--json  writes one line of JSON
";

/// The options of a command that shows resets.
const OF_RESETS: &str = "\
--1995  reads self-ID packets by IEEE Std 1394-1995: up to 27 ports a node
--short writes one line for each reset; resets also which port lost its child how often
--json  writes a line of JSON for each reset
";

/// The option of `explain`.
const OF_EXPLAIN: &str = "\
--json  writes a line of JSON for each fault
";

/// The option of `import`.
const OF_IMPORT: &str = "\
--reset=K  takes reset number K, from 1, of a log that resets would show
";

/// The options of a command.
pub(crate) fn options_of(command: &str) -> &'static str {
    match command {
        "packets" | "json" | "flawed" => BY_1995,
        "tree" | "dot" => OF_TREE,
        "diff" => OF_DIFF,
        "explain" => OF_EXPLAIN,
        "import" => OF_IMPORT,
        "resets" | "nosy" => OF_RESETS,
        _ => "",
    }
}

/// An example of a command, as it stands below `Example: `.
pub(crate) fn example_of(command: &str) -> &'static str {
    match command {
        "packets" => "busview packets hub.capture",
        "tree" => "busview tree hub.capture",
        "dot" => "busview dot hub.capture | dot -Tsvg > hub.svg",
        "json" => "busview json hub.capture | jq .root",
        "trace" => "busview trace hub.script | less",
        "waves" => "busview waves hub.script > hub.vcd; gtkwave hub.vcd",
        "dot-run" => "busview dot-run hub.script | dot -Tsvg > hub.svg",
        "json-run" => "busview json-run hub.script | jq .turn",
        "explain" => "busview explain hub.script",
        "capture" => "busview capture hub hub.script | busview tree",
        "script" => "busview script 5 1 > five.script",
        "flawed" => "busview flawed TwoParents 17 3 > my.capture",
        "resets" => "journalctl -k | busview resets",
        "nosy" => "nosy-dump > my.dump; busview nosy my.dump",
        "diff" => "busview diff before.capture after.capture",
        "import" => "busview import dump.txt | busview tree",
        _ => "busview --help",
    }
}
