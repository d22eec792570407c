//! Tests of dumps in memory, with faults of the source and of the sink.

use io_edges::{MemSink, MemSource};
use nosy_dump::show_dump;
use reset_list::{LogForm, LogStop};
use self_id::Standard;
use std::test::Fail;

/// Two resets without packets, and the beginning of a record.
const DUMP: [u8; 18] = [4, 0, 0, 0, 1, 0, 0, 0, 4, 0, 0, 0, 2, 0, 0, 0, 4, 0];

const FIRST: &[u8] =
    b"reset 1 byte 0 time 1\nrefused pair 0 Empty\nFound no packet, wanted those of one node at least.\n";

const ALL: &[u8] =
    b"reset 1 byte 0 time 1\nrefused pair 0 Empty\nFound no packet, wanted those of one node at least.\nreset 2 byte 8 time 2\nrefused pair 0 Empty\nFound no packet, wanted those of one node at least.\nrefused byte 16 Cut\nFound the end of the input inside this record, wanted its length and its bytes.\nresets 2 refused 2\n";

#[test]
fn dumps_with_faults(rt: HostRuntime) -> Result<(), Fail> {
    let alloc = rt.alloc();
    let form = LogForm::Text(Standard::Ieee2000);
    for (read, room, answer, written) in [
        (9, 999, Ok(true), ALL),
        (0, 999, Err(LogStop::ReadFault), b""),
        (4, 999, Err(LogStop::ReadFault), FIRST),
        (9, 0, Err(LogStop::WriteFault), b""),
        (9, 7, Err(LogStop::WriteFault), b"reset 1"),
        (9, 280, Err(LogStop::WriteFault), &ALL[..280]),
    ] {
        let dump = Vec::from_slice(alloc, &DUMP)?;
        let mut source = MemSource::new(dump, vec![in alloc; read]?, 5);
        let mut sink = MemSink::new(alloc, room, Vec::new(alloc), 9)?;
        assert!(rt; show_dump(alloc, form, &mut source, &mut sink) == answer);
        assert!(rt; sink.written() == written);
    }
    Ok(())
}
