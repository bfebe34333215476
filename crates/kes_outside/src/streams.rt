ghost use Rattle.std.specs.Prelude.{◌≡◌, ◌↔◌, IsTrue};
ghost use Rattle.std.specs.IoError.{error_kind};
ghost use Rattle.kes_outside.specs.CountedWriter.{HandedOver};

use crate::files::FileFault;
use crate::sink::SinkFault;
use std::io;
use std::io::{ErrorKind, Write};

fn is_want_of_memory(error: &io::Error) -> bool
    ensures { IsTrue result ↔ (error_kind error.now ≡ ErrorKind.OutOfMemory) }
{
    error.kind() == ErrorKind::OutOfMemory
}

fn is_interrupted(error: &io::Error) -> bool
    ensures { IsTrue result ↔ (error_kind error.now ≡ ErrorKind.Interrupted) }
{
    error.kind() == ErrorKind::Interrupted
}

/// Want of memory is no fault, and all else is one.
pub(crate) fn fault_of(error: io::Error) -> FileFault
    ensures { (result ≡ FileFault.NoMemory) ↔ (error_kind error ≡ ErrorKind.OutOfMemory) }
{
    if is_want_of_memory(&error) {
        FileFault::NoMemory
    } else {
        FileFault::Failed
    }
}

/// Hands the whole piece to the writer. A write that was interrupted is tried again, at most 2^64
/// times for one piece. Want of memory once some bytes are taken is a fault, as any other.
pub(crate) fn write_whole<W: Write>(writer: &mut W, bytes: &[u8]) -> Result<(), SinkFault>
    ensures { HandedOver (W.contents writer.old) (W.contents writer.new) bytes.now result }
{
    let mut taken = 0;
    for _ in 0..u64::MAX {
        if taken == bytes.len() {
            return Ok(());
        }
        match writer.write(&bytes[taken..]) {
            Ok(0) => return Err(SinkFault::Failed),
            Ok(count) => taken += count,
            Err(error) => {
                if taken == 0 && is_want_of_memory(&error) {
                    return Err(SinkFault::NoMemory);
                }
                if !is_interrupted(&error) {
                    return Err(SinkFault::Failed);
                }
            }
        }
    }
    Err(SinkFault::Failed)
}
