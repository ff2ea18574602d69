//! Calls whose memory is refused: `tools/refusals` knows by `no memory` that a call named its refusal.

use std::io::sink;
use std::test::Fail;
use tv_files::{BufferedStream, Stream};
use tv_io::Writer;

// A stream that was made keeps bytes back without more memory.
#[test]
fn stream(rt: HostRuntime) -> Result<(), Fail> {
    let Ok(mut stream) = BufferedStream::new(rt.alloc(), sink()) else {
        return Err(Fail::new("no memory"));
    };
    assert_eq!(rt; stream.write(b"open a\n"), Some(7), "it takes no bytes");
    assert!(rt; stream.flush().is_ok(), "it writes no bytes");
    Ok(())
}
