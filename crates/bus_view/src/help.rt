//! What `--help` tells.

/// What each form does, in a line; the statuses; and where the pages are.
pub const VIEW_HELP: &str = "\
busview shows FireWire cable buses to people at a bench
(IEEE Std 1394-1995 and 1394a-2000).

busview packets [CAPTURE ..]  each packet field by field, and what is wrong
busview tree [CAPTURE ..]   the tree of the bus as a drawing
busview dot [CAPTURE]       the tree of the bus as a graph for Graphviz
busview json [CAPTURE]      the tree of the bus as JSON, for programs
busview trace [SCRIPT]      what happens on the bus of a script, turn by turn
busview waves [SCRIPT]      what changes on it, for waveform viewers
busview dot-run [SCRIPT]    its last report as a graph for Graphviz
busview json-run [SCRIPT]   its reports as JSON, a line for each
busview explain [SCRIPT]    what is at fault in a script, and what was wanted
busview capture NAME [SCRIPT]  the capture of the bus with that node at the end
busview script N SEED       the script that busconf make N SEED runs
busview flawed KIND N SEED  a capture that busconf read refuses by that fault
busview resets [LOG ..]     the bus at each reset in a Linux kernel's trace
busview nosy [DUMP ..]      the bus at each reset in a recording of nosy-dump
busview diff OLD NEW        what differs between the buses of two captures
busview import [INPUT]      the capture of text, a dump, a buffer or a map
busview --help, -h          this text; after a command, what that one does
busview --version           the version, its kit, and the standards

CAPTURE, SCRIPT, LOG, DUMP and INPUT are files. Without one, and for -, standard
input is read. Of several files each answer comes after a line with the file's
name.
OLD and NEW are captures, of which one may be -.

With --names, tree and dot take NAMES and CAPTURE, of which one may be -. NAMES
is a file with a line ID NAME for each node that has a name.

With --1995, which packets, tree, dot, json, resets, nosy, diff and flawed take,
self-ID packets are read by IEEE Std 1394-1995: up to 27 ports a node. With
--json, which explain, resets, nosy and diff take, the answer is lines of JSON.
With --short, which resets and nosy take, each reset has one line.
With --reset=K, import takes reset K, from 1, of a log as resets counts them.
Options may come anywhere after the command; -- ends them.

A capture is the self-ID packets of one bus reset, each as a big-endian quadlet
and its bitwise inverse. Input is at most 1,048,576 bytes; a log or a dump may
go on for as long as one likes.
Answers, refusals too, go to standard output.

Status: 0 the input is valid; with diff, nothing differs
        1 the input is refused; with diff, something differs
        2 the words are no command; with diff, or a capture is refused; with
          --names, or NAMES is
        3 the input can't be read
        4 standard output can't be written
        5 there is no memory
        6 the input is too long
Of several files it is the greatest of theirs.

Pages: man busview. In the sources: README.md, docs/VIEW.md,
docs/CAPTURES.md, docs/SCRIPTS.md.
";
