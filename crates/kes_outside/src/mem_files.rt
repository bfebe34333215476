ghost use Rattle.std.specs.Prelude.{◌≡◌, ◌≤◌, ◌↔◌, IsTrue, false, IfOk, Some, None, Err, OnOk, OnErr, position, string_bytes};
ghost use Rattle.std.specs.FinMap.{get, insert};
ghost use Rattle.std.specs.Str.{bytes_eq};
ghost use Rattle.std.specs.Option.{option_copied};
ghost use Rattle.kes_outside.specs.CallCounts.{after_call, fails, no_calls};
ghost use Rattle.kes_outside.specs.FilesInMemory.{contents_of};

use crate::calls::Calls;
use crate::files::{FileFault, Files, ReadStop};
use std::alloc::{AllocError, Global};
use std::marker::Model;

/// Files in memory, for tests: they tell their contents, and fail exactly at the calls that they
/// are told to fail at. A name is looked up from the front of the pairs, of which a test has few.
#[derive(Debug, Drop)]
pub struct MemFiles {
    pairs: Vec<(String, Vec<u8>)>,
    calls: Calls,
}

impl Model for MemFiles {
    ghost use Rattle.kes_outside.specs.FilesInMemory.{FilesInMemory, contents_of, files_in_memory_code};

    ghost Value = { FilesInMemory };

    ghost coded = { files_in_memory_code };

    ghost view = { λ files. record { contents = contents_of files.pairs.items; calls = files.calls } };
}

/// The place of the first pair with this name.
fn place_of(pairs: &[(String, Vec<u8>)], name: &str) -> Option<usize>
    ensures { result ≡ position (λ pair. bytes_eq name.now (string_bytes pair.0)) pairs.now }
{
    pairs.iter().position(|pair| name == pair.0.as_str())
}

/// Makes the named pair hold these bytes, which takes memory before it changes anything.
fn store(
    alloc: Global,
    pairs: &mut Vec<(String, Vec<u8>)>,
    name: &str,
    bytes: &[u8],
) -> Result<(), AllocError>
    ensures ok { OnOk result
        (contents_of pairs.new.items ≡ insert (contents_of pairs.old.items) name.now bytes.now) }
    ensures err { OnErr result (pairs.new.items ≡ pairs.old.items) }
{
    let copy = Vec::from_slice(alloc, bytes)?;
    match place_of(pairs.as_slice(), name) {
        Some(place) => pairs[place].1 = copy,
        None => pairs.push((String::from_str(alloc, name)?, copy))?,
    }
    Ok(())
}

impl MemFiles {
    /// Files by name. Where a name stands in several pairs, the first of them is that file, and the
    /// others count for nothing. The calls whose numbers are listed will fail, counted from 0 over
    /// reads and writes together.
    pub fn new(files: Vec<(String, Vec<u8>)>, failing: Vec<u64>) -> MemFiles
        ensures contents { result.contents ≡ contents_of files.items }
        ensures calls { result.calls ≡ no_calls failing.items }
    {
        MemFiles {
            pairs: files,
            calls: Calls::new(failing),
        }
    }

    /// The bytes of the named file, or None where there is no such file. It is no call that counts.
    pub fn get(&self, name: &str) -> Option<&[u8]>
        ensures { option_copied result ≡ get self.now.contents name.now }
    {
        match place_of(self.pairs.as_slice(), name) {
            Some(place) => Some(self.pairs[place].1.as_slice()),
            None => None,
        }
    }
}

impl Files for MemFiles {
    ghost contents = { λ files. Some files.contents };

    ghost faults = { λ files. files.calls.faults };

    fn read(&mut self, alloc: Global, name: &str) -> Result<Vec<u8>, ReadStop>
        ensures ok { IfOk result (λ bytes. get self.old.contents name.now ≡ Some bytes.items) }
        ensures files { self.new.contents ≡ self.old.contents }
        ensures failed { (result ≡ Err ReadStop.Failed) ↔ IsTrue (fails self.old.calls) }

        // What is to fail fails, also where the name isn't there.
        ensures missing { (result ≡ Err ReadStop.Missing)
            ↔ ((fails self.old.calls ≡ false) × (get self.old.contents name.now ≡ None)) }
        ensures calls { self.new.calls ≡ after_call self.old.calls }
        ensures count { self.old.calls.faults ≤ self.new.calls.faults }
    {
        if self.calls.begin() {
            return Err(ReadStop::Failed);
        }
        match self.get(name) {
            None => Err(ReadStop::Missing),
            Some(bytes) => Vec::from_slice(alloc, bytes).map_err(|_| ReadStop::NoMemory),
        }
    }

    fn write(&mut self, alloc: Global, name: &str, bytes: &[u8]) -> Result<(), FileFault>
        ensures ok { OnOk result (self.new.contents ≡ insert self.old.contents name.now bytes.now) }
        ensures err { OnErr result (self.new.contents ≡ self.old.contents) }
        ensures failed { (result ≡ Err FileFault.Failed) ↔ IsTrue (fails self.old.calls) }
        ensures calls { self.new.calls ≡ after_call self.old.calls }
        ensures count { self.old.calls.faults ≤ self.new.calls.faults }
    {
        if self.calls.begin() {
            return Err(FileFault::Failed);
        }
        store(alloc, &mut self.pairs, name, bytes).map_err(|_| FileFault::NoMemory)
    }
}

#[cfg(test)]
mod tests {
    use super::*;
    use std::test::Fail;

    fn pairs_of(
        alloc: Global,
        pairs: &[(&str, &[u8])],
    ) -> Result<Vec<(String, Vec<u8>)>, AllocError> {
        let mut files = Vec::new(alloc);
        for (name, bytes) in pairs {
            let name = String::from_str(alloc, name)?;
            files.push((name, Vec::from_slice(alloc, bytes)?))?;
        }
        Ok(files)
    }

    #[test]
    fn the_first_pair_of_a_name_is_the_file(rt: HostRuntime) -> Result<(), Fail> {
        let alloc = rt.alloc();
        let pairs = pairs_of(alloc, &[("a", b"1"), ("a", b"2")])?;
        let mut files = MemFiles::new(pairs, Vec::new(alloc));
        assert_eq!(rt; files.get("a"), Some(b"1".as_slice()));
        assert_eq!(rt; files.read(alloc, "a")?.as_slice(), b"1".as_slice());
        files.write(alloc, "a", b"4")?;
        files.write(alloc, "c", b"5")?;
        assert_eq!(rt; files.get("a"), Some(b"4".as_slice()));
        assert_eq!(rt; files.get("c"), Some(b"5".as_slice()));
        Ok(())
    }

    #[test]
    fn fails_at_the_listed_calls(rt: HostRuntime) -> Result<(), Fail> {
        let alloc = rt.alloc();
        let pairs = pairs_of(alloc, &[("a", b"1")])?;
        let failing = vec![in alloc; 1, 3]?;
        let mut files = MemFiles::new(pairs, failing);
        assert_eq!(rt; files.read(alloc, "b").err(), Some(ReadStop::Missing));
        assert_eq!(rt; files.read(alloc, "a").err(), Some(ReadStop::Failed));
        assert_eq!(rt; files.read(alloc, "a").err(), None);
        assert_eq!(rt; files.write(alloc, "a", b"2"), Err(FileFault::Failed));
        assert_eq!(rt; files.get("a"), Some(b"1".as_slice()));
        Ok(())
    }
}
