//! What `--help` tells.

/// What each form does, in a line; the statuses; and where the pages are.
pub const HELP: &str = "\
busconf runs FireWire cable buses from scripts, and reads what real buses sent
(IEEE Std 1394-1995 and 1394a-2000).

busconf run [SCRIPT]          run a bus, and report what each part comes to
busconf advice [SCRIPT]       say which cables to pull where a bus has loops
busconf read [CAPTURE ..]     show the tree of a capture, or the rule it breaks
busconf read95 [CAPTURE ..]   by IEEE Std 1394-1995: up to 27 ports a node
busconf maps [CAPTURE ..]     write the topology map and the speed map
busconf rom [ROM ..]          show the parts of a configuration ROM
busconf make N SEED           run a script that busconf makes, of 1 to 63 nodes
busconf --help, -h            this text; after a command, what that one does
busconf --version             the version, its kit, and the standards

SCRIPT, CAPTURE and ROM are files. Without one, and for -, standard input is
read. Of several files each answer comes after a line with the file's name. A
file whose name begins with - comes after --.

A capture is the self-ID packets of one bus reset, each as a big-endian quadlet
and its bitwise inverse. Input is at most 1,048,576 bytes. Answers, refusals
too, go to standard output.

Status: 0 the input is valid
        1 the input is refused, in one line
        2 the words are no command
        3 the input can't be read
        4 standard output can't be written
        5 there is no memory
        6 the input is too long
Of several files it is the greatest of theirs.

Pages: man busconf. In the sources: README.md, docs/SCRIPTS.md,
docs/CAPTURES.md, docs/ROMS.md, docs/GUARANTEES.md.
";
