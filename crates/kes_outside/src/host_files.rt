ghost use Rattle.std.specs.Prelude.{◌≡◌, ◌≢◌, ◌≤◌, ◌<◌, None, Err, IfOk, IfSome, OnOk, MatchResult, vec_len};
ghost use Rattle.kes_outside.specs.Count.{one_more};

use crate::count::one_more;
use crate::files::{FileFault, Files, ReadStop};
use crate::streams::{fault_of, write_whole};
use std::alloc::Global;
use std::io::Read;
use std::marker::Model;
use std::{fs, rt};

/// The most bytes of a host file that is read, 1 GiB. One that is longer is a fault.
pub const MOST_BYTES: u64 = 1_073_741_824;

/// The files of the host. Nothing is told of what they hold, so contracts see the count of faults
/// alone. A file that isn't there is a fault, and so is one of more than [`MOST_BYTES`] bytes.
#[derive(Drop)]
pub struct HostFiles<'a, R> {
    runtime: &'a R,
    faults: u64,
}

impl<'a, R> Model for HostFiles<'a, R> {
    ghost use Rattle.std.specs.Prelude.{ℕ};

    ghost Value = { ℕ };

    ghost view = { λ files. files.faults };
}

impl<'a, R: rt::Files> HostFiles<'a, R> {
    /// The files that this runtime reaches, with no fault yet.
    pub fn new(runtime: &'a R) -> HostFiles<'a, R>
        ensures { result ≡ 0 }
    {
        HostFiles { runtime, faults: 0 }
    }
}

fn within_limit(bytes: Vec<u8>) -> Result<Vec<u8>, FileFault>
    ensures { MatchResult result
        (λ kept. (kept ≡ bytes) × (vec_len bytes ≤ MOST_BYTES))
        (λ fault. (fault ≡ FileFault.Failed) × (MOST_BYTES < vec_len bytes)) }
{
    if bytes.len() as u64 > MOST_BYTES {
        return Err(FileFault::Failed);
    }
    Ok(bytes)
}

/// All bytes of the source, to its end. It is read no further than one byte past the limit.
fn read_whole<S: Read + Drop>(alloc: Global, source: S) -> Result<Vec<u8>, FileFault>
    ensures ok { IfOk result (λ bytes. IfSome (S.remaining source) (λ all. bytes.items ≡ all)) }
    ensures within { IfOk result (λ bytes. vec_len bytes ≤ MOST_BYTES) }
{
    let mut bytes = Vec::new(alloc);
    match source.take(MOST_BYTES + 1).read_to_end(&mut bytes) {
        Ok(_) => within_limit(bytes),
        Err(error) => Err(fault_of(error)),
    }
}

fn read_file<R: rt::Files>(runtime: &R, alloc: Global, name: &str) -> Result<Vec<u8>, FileFault>
    ensures { IfOk result (λ bytes. vec_len bytes ≤ MOST_BYTES) }
{
    match fs::open(runtime, name) {
        Ok(file) => read_whole(alloc, file),
        Err(error) => Err(fault_of(error)),
    }
}

/// Once it is open for writing, the file has lost what it held: from then on want of memory is a
/// fault too.
fn write_file<R: rt::Files>(runtime: &R, name: &str, bytes: &[u8]) -> Result<(), FileFault> {
    match fs::create(runtime, name) {
        Ok(mut file) => write_whole(&mut file, bytes).map_err(|_| FileFault::Failed),
        Err(error) => Err(fault_of(error)),
    }
}

impl<'a, R: rt::Files> Files for HostFiles<'a, R> {
    ghost contents = { λ _. None };

    ghost faults = { λ files. files };

    fn read(&mut self, alloc: Global, name: &str) -> Result<Vec<u8>, ReadStop>
        ensures within { IfOk result (λ bytes. vec_len bytes ≤ MOST_BYTES) }
        ensures never_missing { result ≢ Err ReadStop.Missing }
        ensures failed { result ≡ Err ReadStop.Failed → self.new ≡ one_more self.old }
        ensures ok_is_no_fault { OnOk result (self.new ≡ self.old) }
        ensures no_memory_is_no_fault { result ≡ Err ReadStop.NoMemory → self.new ≡ self.old }
        ensures count { self.old ≤ self.new }
    {
        match read_file(self.runtime, alloc, name) {
            Ok(bytes) => Ok(bytes),
            Err(FileFault::NoMemory) => Err(ReadStop::NoMemory),
            Err(FileFault::Failed) => {
                self.faults = one_more(self.faults);
                Err(ReadStop::Failed)
            }
        }
    }

    fn write(&mut self, _alloc: Global, name: &str, bytes: &[u8]) -> Result<(), FileFault>
        ensures failed { result ≡ Err FileFault.Failed → self.new ≡ one_more self.old }
        ensures ok_is_no_fault { OnOk result (self.new ≡ self.old) }
        ensures no_memory_is_no_fault { result ≡ Err FileFault.NoMemory → self.new ≡ self.old }
        ensures count { self.old ≤ self.new }
    {
        let result = write_file(self.runtime, name, bytes);
        if result == Err(FileFault::Failed) {
            self.faults = one_more(self.faults);
        }
        result
    }
}

#[cfg(test)]
mod tests {
    use super::*;
    use std::io;
    use std::test::Fail;

    #[test]
    fn host_edge(rt: HostRuntime) -> Result<(), Fail> {
        let name = "host_edge.tmp";
        let mut files = HostFiles::new(&rt);
        files.write(rt.alloc(), name, b"longer than the next")?;
        files.write(rt.alloc(), name, b"edge\n")?;
        assert_eq!(rt;
            files.read(rt.alloc(), name)?.as_slice(),
            b"edge\n".as_slice()
        );
        assert_eq!(rt; files.faults, 0);
        fs::remove_file(&rt, name)?;
        assert!(rt; matches!(files.read(rt.alloc(), name), Err(ReadStop::Failed)));
        assert_eq!(rt; files.faults, 1);
        assert_eq!(rt;
            files.write(rt.alloc(), "no such folder/edge", b""),
            Err(FileFault::Failed)
        );
        assert_eq!(rt; files.faults, 2);
        Ok(())
    }

    /// Gives one byte, and then this error.
    #[derive(Drop)]
    struct Breaking {
        has_given: bool,
        kind: io::ErrorKind,
    }

    impl Read for Breaking {
        fn read(&mut self, buf: &mut [u8]) -> io::Result<usize> {
            if self.has_given || buf.is_empty() {
                return Err(io::Error::from(self.kind));
            }
            self.has_given = true;
            buf[0] = b'x';
            Ok(1)
        }
    }

    #[test]
    fn a_source_that_breaks_off_is_not_read(rt: HostRuntime) -> Result<(), Fail> {
        let cases = [
            (io::ErrorKind::Other, FileFault::Failed),
            (io::ErrorKind::OutOfMemory, FileFault::NoMemory),
        ];
        for (kind, fault) in cases {
            let source = Breaking {
                has_given: false,
                kind,
            };
            assert_eq!(rt; read_whole(rt.alloc(), source).err(), Some(fault));
        }
        let bytes = read_whole(rt.alloc(), b"all".as_slice())?;
        assert_eq!(rt; bytes.as_slice(), b"all".as_slice());
        Ok(())
    }
}
