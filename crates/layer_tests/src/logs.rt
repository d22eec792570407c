//! Tests of lines and of logs in memory, with faults of the source and of the sink.

use io_edges::{MemSink, MemSource};
use log_line::{LogLine, Origin, line_of};
use reset_list::{LogForm, LogStop};
use reset_log::show_log;
use self_id::Standard;
use std::test::Fail;

#[test]
fn lines_by_themselves(rt: HostRuntime) -> Result<(), Fail> {
    for (line, found) in [
        (
            b"irq/19 [002] 1.2: sched_switch: card_index=0".as_slice(),
            'o',
        ),
        (b"", 'o'),
        (b"CPU:2 [LOST 12 EVENTS]", 'l'),
        (
            b"firewire_ohci 0000:05:00.0: 2 selfIDs, generation 1, local node ID ffc1",
            'b',
        ),
        (
            b"firewire_ohci 0000:05:00.0: selfID 0: 807f8094, phy 0 [p--] S400 gc=63 +0W L",
            'p',
        ),
        (
            b"[ 1.000001] firewire_core 0000:05:00.0: topology build failed",
            's',
        ),
        (b"x: bus_reset_handle: card_index=0 generation=1", 'g'),
        (
            b"bus_reset_handle: card_index=0 generation=1 self_ids={0x1,}",
            'g',
        ),
        (
            b"bus_reset_handle: card_index=0 generation=1 self_ids={}",
            'k',
        ),
        (
            b"firewire_ohci:self_id_complete: card_index=2 is_error=true generation_at_completion=7 packet_data={0x807f8094,0x7f807f6b}",
            'c',
        ),
    ] {
        let kind = match line_of(rt.alloc(), line)? {
            LogLine::Other => 'o',
            LogLine::Lost => 'l',
            LogLine::Said { .. } => 's',
            LogLine::Begins(_) => 'b',
            LogLine::Packet { .. } => 'p',
            LogLine::Garbled => 'g',
            LogLine::OfReset(reset) => match reset.origin {
                Origin::Controller => 'c',
                Origin::Core => 'k',
            },
        };
        assert!(rt; kind == found);
    }
    Ok(())
}

/// Two lines, the second of which has no line feed.
const LOG: &[u8] = b"bus_reset_handle: card_index=x\nself_id_complete:";

#[test]
fn logs_with_faults(rt: HostRuntime) -> Result<(), Fail> {
    let alloc = rt.alloc();
    let form = LogForm::Text(Standard::Ieee2000);
    for (read, room, answer, written) in [
        (
            9,
            99,
            Ok(true),
            b"line 1 garbled\nline 2 garbled\nresets 0 refused 0 cards 0\n".as_slice(),
        ),
        (0, 99, Err(LogStop::ReadFault), b""),
        (9, 0, Err(LogStop::WriteFault), b""),
        (9, 6, Err(LogStop::WriteFault), b"line 1"),
        (7, 99, Err(LogStop::ReadFault), b"line 1 garbled\n"),
        (9, 20, Err(LogStop::WriteFault), b"line 1 garbled\nline "),
    ] {
        let log = Vec::from_slice(alloc, LOG)?;
        let mut source = MemSource::new(log, vec![in alloc; read]?, 7);
        let mut sink = MemSink::new(alloc, room, Vec::new(alloc), 5)?;
        assert!(rt; show_log(alloc, form, &mut source, &mut sink) == answer);
        assert!(rt; sink.written() == written);
    }
    Ok(())
}
