//! Streams that are asked to pass on what they took.

use crate::sink::Sink;
use std::test::Fail;
use tv_files::{BufferedStream, DirectStream, Stream};
use tv_io::Writer;

/// Whether two bytes were passed on, what a third one's write answers, and whether the flush is well.
type Later = (bool, Option<usize>, bool);

/// The bytes for which a sink has room, whether its flush is well, and what comes of a buffered and of a direct stream over it.
const SINKS: [(usize, bool, Later, Later); 3] = [
    (100, true, (true, Some(1), true), (true, Some(1), true)),
    // All bytes are the sink's: its flush shows at the next byte of a direct stream, and at the end.
    (100, false, (true, Some(1), false), (true, None, false)),
    // The second byte has no room: a buffered stream keeps it back.
    (1, true, (false, Some(1), false), (true, None, false)),
];

fn later<S: Stream>(stream: &mut S) -> Later {
    stream.write(b"ab");
    let is_passed_on = stream.pass_on().is_ok();
    let third = stream.write(b"c");
    (is_passed_on, third, stream.flush().is_ok())
}

// What can't be passed on is told at once, and again when the stream is flushed.
#[test]
fn streams_that_break(rt: HostRuntime) -> Result<(), Fail> {
    let alloc = rt.alloc();
    for (room, flushes, buffered, direct) in &SINKS {
        let mut stream = BufferedStream::new(alloc, Sink::new(alloc, *room, *flushes))?;
        assert_eq!(rt; later(&mut stream), *buffered);
        let mut stream = DirectStream::new(Sink::new(alloc, *room, *flushes));
        assert_eq!(rt; later(&mut stream), *direct);
    }
    Ok(())
}
