ghost use Rattle.std.specs.Prelude.{◌≡◌, ◌≤◌, None, Err, OnOk};
ghost use Rattle.kes_outside.specs.Count.{one_more};
ghost use Rattle.kes_outside.specs.CountedWriter.{HandedOver};

use crate::count::one_more;
use crate::sink::{Sink, SinkFault};
use crate::streams::write_whole;
use std::alloc::Global;
use std::io::Write;
use std::marker::Model;

/// A sink over a writer. As a sink it tells nothing of what it has taken. Where its writer tells its
/// bytes, contracts see them there. A writer that takes nothing of a piece that isn't empty has
/// failed, and so has one that cannot be flushed after the piece.
#[derive(Drop)]
pub struct HostSink<W> {
    writer: W,
    faults: u64,
}

impl<W> Model for HostSink<W> {
    ghost use Rattle.kes_outside.specs.CountedWriter.{CountedWriter};

    ghost Value = { CountedWriter W };

    ghost view = { λ sink. record { writer = sink.writer; faults = sink.faults } };
}

impl<W: Write + Drop> HostSink<W> {
    /// A sink over this writer, with no fault yet.
    pub fn new(writer: W) -> HostSink<W>
        ensures { result ≡ record { writer = writer; faults = 0 } }
    {
        HostSink { writer, faults: 0 }
    }
}

/// A piece is out only once it is flushed.
fn write_and_flush<W: Write>(writer: &mut W, bytes: &[u8]) -> Result<(), SinkFault>
    ensures { HandedOver (W.contents writer.old) (W.contents writer.new) bytes.now result }
{
    write_whole(writer, bytes)?;
    match writer.flush() {
        Ok(()) => Ok(()),
        Err(_) => Err(SinkFault::Failed),
    }
}

impl<W: Write + Drop> Sink for HostSink<W> {
    ghost taken = { λ _. None };

    ghost faults = { λ sink. sink.faults };

    fn put(&mut self, _alloc: Global, bytes: &[u8]) -> Result<(), SinkFault>
        ensures bytes { HandedOver (W.contents self.old.writer) (W.contents self.new.writer) bytes.now result }
        ensures failed { result ≡ Err SinkFault.Failed → self.new.faults ≡ one_more self.old.faults }
        ensures ok_is_no_fault { OnOk result (self.new.faults ≡ self.old.faults) }
        ensures no_memory_is_no_fault { result ≡ Err SinkFault.NoMemory → self.new.faults ≡ self.old.faults }
        ensures count { self.old.faults ≤ self.new.faults }
    {
        let result = write_and_flush(&mut self.writer, bytes);
        if result == Err(SinkFault::Failed) {
            self.faults = one_more(self.faults);
        }
        result
    }
}

#[cfg(test)]
mod tests {
    use super::*;
    use std::io;
    use std::test::Fail;

    /// Takes nothing.
    #[derive(Drop)]
    struct Stuck;

    impl Write for Stuck {
        fn write(&mut self, _buf: &[u8]) -> io::Result<usize> {
            Ok(0)
        }

        fn flush(&mut self) -> io::Result<()> {
            Ok(())
        }
    }

    /// Takes one byte at a time, each after it was interrupted, up to a number of them.
    struct Slow<'a> {
        taken: &'a mut Vec<u8>,
        most: usize,
        was_interrupted: bool,
    }

    impl Drop for Slow<'_> {
        fn drop(self) {
            let Slow {
                taken: _,
                most: _,
                was_interrupted: _,
            } = self;
        }
    }

    impl Write for Slow<'_> {
        fn write(&mut self, buf: &[u8]) -> io::Result<usize> {
            self.was_interrupted = !self.was_interrupted;
            if self.was_interrupted {
                return Err(io::Error::from(io::ErrorKind::Interrupted));
            }
            match buf.first() {
                Some(byte) if self.taken.len() < self.most => {
                    self.taken.push(*byte)?;
                    Ok(1)
                }
                _ => Err(io::Error::from(io::ErrorKind::OutOfMemory)),
            }
        }

        fn flush(&mut self) -> io::Result<()> {
            Ok(())
        }
    }

    #[test]
    fn takes_pieces_whole(rt: HostRuntime) -> Result<(), Fail> {
        let mut bytes = Vec::new(rt.alloc());
        let mut sink = HostSink::new(&mut bytes);
        sink.put(rt.alloc(), b"one")?;
        sink.put(rt.alloc(), b"")?;
        sink.put(rt.alloc(), b" two")?;
        drop(sink);
        assert_eq!(rt; bytes.as_slice(), b"one two".as_slice());
        Ok(())
    }

    #[test]
    fn a_writer_that_takes_nothing_has_failed(rt: HostRuntime) {
        let mut sink = HostSink::new(Stuck);
        assert_eq!(rt; sink.put(rt.alloc(), b"x"), Err(SinkFault::Failed));
        assert_eq!(rt; sink.faults, 1);
        assert_eq!(rt; sink.put(rt.alloc(), b""), Ok(()));
        assert_eq!(rt; sink.faults, 1);
    }

    /// Want of memory is a fault once bytes were taken, and else none.
    #[test]
    fn a_slow_writer_takes_all_that_it_can(rt: HostRuntime) -> Result<(), Fail> {
        let cases = [
            (3, Ok(()), 0),
            (2, Err(SinkFault::Failed), 1),
            (0, Err(SinkFault::NoMemory), 0),
        ];
        for (most, answer, faults) in cases {
            let mut taken = Vec::new(rt.alloc());
            let mut sink = HostSink::new(Slow {
                taken: &mut taken,
                most,
                was_interrupted: false,
            });
            assert_eq!(rt; sink.put(rt.alloc(), b"abc"), answer, "{most} bytes");
            assert_eq!(rt; sink.faults, faults, "{most} bytes");
            drop(sink);
            assert_eq!(rt; taken.len(), most);
        }
        Ok(())
    }
}
