ghost use Rattle.std.specs.Prelude.{◌≡◌, ◌≤◌, ◌++◌, [], ◌↔◌, IsTrue, Some, Err, OnOk, OnErr};
ghost use Rattle.kes_outside.specs.CallCounts.{after_call, fails, no_calls};

use crate::calls::Calls;
use crate::sink::{Sink, SinkFault};
use std::alloc::Global;
use std::marker::Model;

/// A sink in memory, for tests: it tells what it has taken, and fails exactly at the calls that it
/// is told to fail at.
#[derive(Debug, Drop)]
pub struct MemSink {
    taken: Vec<u8>,
    calls: Calls,
}

impl Model for MemSink {
    ghost use Rattle.kes_outside.specs.SinkInMemory.{SinkInMemory, sink_in_memory_code};

    ghost Value = { SinkInMemory };

    ghost coded = { sink_in_memory_code };

    ghost view = { λ sink. record { taken = sink.taken.items; calls = sink.calls } };
}

impl MemSink {
    /// A sink that has taken nothing. The calls whose numbers are listed, counted from 0, will fail.
    pub fn new(alloc: Global, failing: Vec<u64>) -> MemSink
        ensures taken { result.taken ≡ [] }
        ensures calls { result.calls ≡ no_calls failing.items }
    {
        MemSink {
            taken: Vec::new(alloc),
            calls: Calls::new(failing),
        }
    }

    /// The bytes that it has taken.
    pub fn bytes(&self) -> &[u8]
        ensures { result.now ≡ self.now.taken }
    {
        self.taken.as_slice()
    }
}

impl Sink for MemSink {
    ghost taken = { λ sink. Some sink.taken };

    ghost faults = { λ sink. sink.calls.faults };

    fn put(&mut self, _alloc: Global, bytes: &[u8]) -> Result<(), SinkFault>
        ensures ok { OnOk result (self.new.taken ≡ self.old.taken ++ bytes.now) }
        ensures err { OnErr result (self.new.taken ≡ self.old.taken) }
        ensures fails { (result ≡ Err SinkFault.Failed) ↔ IsTrue (fails self.old.calls) }
        ensures calls { self.new.calls ≡ after_call self.old.calls }
        ensures count { self.old.calls.faults ≤ self.new.calls.faults }
    {
        if self.calls.begin() {
            return Err(SinkFault::Failed);
        }
        match self.taken.extend_from_slice(bytes) {
            Ok(()) => Ok(()),
            Err(_) => Err(SinkFault::NoMemory),
        }
    }
}

#[cfg(test)]
mod tests {
    use super::*;
    use std::test::Fail;

    #[test]
    fn fails_at_the_listed_calls(rt: HostRuntime) -> Result<(), Fail> {
        let failing = vec![in rt.alloc(); 1, 3]?;
        let mut sink = MemSink::new(rt.alloc(), failing);
        assert_eq!(rt; sink.put(rt.alloc(), b"a"), Ok(()));
        assert_eq!(rt; sink.put(rt.alloc(), b"b"), Err(SinkFault::Failed));
        assert_eq!(rt; sink.put(rt.alloc(), b"c"), Ok(()));
        assert_eq!(rt; sink.put(rt.alloc(), b"d"), Err(SinkFault::Failed));
        assert_eq!(rt; sink.put(rt.alloc(), b"e"), Ok(()));
        assert_eq!(rt; sink.bytes(), b"ace".as_slice());
        Ok(())
    }
}
