ghost use Rattle.std.specs.Prelude.{◌≡◌, ◌==◌, ◌+◌, [], length, IfOk};
ghost use Rattle.kes_text.specs.declared.refusal.Stop.TheVariants.{Refused};
ghost use Rattle.classfile.specs.Scan.{anew, bytes_at, number_at, noted, index_at, OrNoMemory};

use crate::slice::Slice;
use crate::uses::{Use, Wanted};
use byteorder::{BigEndian, ByteOrder};
use kes_text::{Kind, NoMemory, Refusal, Stop};
use std::alloc::Global;
use std::marker::Model;

/// A place in a class file, with the index fields and the members that have been passed over.
#[derive(Drop)]
pub struct Scan<'a> {
    file: &'a [u8],
    at: usize,
    uses: Vec<Use>,
}

impl<'a> Model for Scan<'a> {
    ghost use Rattle.std.specs.Prelude.{length, ◌≤◌};
    ghost use Rattle.classfile.specs.Scan as spec;

    ghost Value = { spec.Scan };

    ghost view = { λ s. record { input = s.file.now; place = s.at; uses = s.uses.items } };

    ghost invariant = { λ s. s.at ≤ length s.file.now };
}

/// The file is refused at a byte.
pub fn refusal(kind: Kind, at: u64) -> Stop
    ensures { result ≡ Refused (record { file = 0; kind = kind; at = at }) }
{
    Stop::Refused(Refusal { file: 0, kind, at })
}

impl<'a> Scan<'a> {
    /// The front of the file.
    pub fn new(alloc: Global, file: &'a [u8]) -> Scan<'a>
        ensures { result ≡ record { input = file.now; place = 0; uses = [] } }
    {
        Scan {
            file,
            at: 0,
            uses: Vec::new(alloc),
        }
    }

    /// How many bytes have been passed over.
    pub fn at(&self) -> u64
        ensures { result ≡ self.now.place }
    {
        self.at as u64
    }

    /// Whether no byte is left.
    pub fn is_at_end(&self) -> bool
        ensures { result ≡ (self.now.place == length self.now.input) }
    {
        self.at == self.file.len()
    }

    /// The index fields and members that have been passed over, in the file's order.
    pub fn uses(&self) -> &[Use]
        ensures { result.now ≡ self.now.uses }
    {
        self.uses.as_slice()
    }

    /// The same place, with nothing passed over.
    pub fn anew(&self, alloc: Global) -> Scan<'a>
        ensures { result ≡ anew self.now }
    {
        Scan {
            file: self.file,
            at: self.at,
            uses: Vec::new(alloc),
        }
    }

    /// The next `count` bytes.
    pub fn take(self, count: usize) -> Result<(Slice<'a>, Scan<'a>), Stop>
        ensures { result ≡ bytes_at count self.entry }
    {
        let Scan { file, at, uses } = self;
        let rest = &file[at..];
        if rest.len() < count {
            return Err(refusal(Kind::Truncated, file.len() as u64));
        }
        let behind = Scan {
            file,
            at: at + count,
            uses,
        };
        Ok((Slice::new(&rest[..count]), behind))
    }

    /// An unsigned number of one byte.
    pub fn u8(self) -> Result<(u8, Scan<'a>), Stop>
        ensures { result ≡ number_at 1 self.entry }
    {
        let (bytes, scan) = self.take(1)?;
        let bytes = bytes.get();
        Ok((bytes[0], scan))
    }

    /// An unsigned number of two bytes.
    pub fn u16(self) -> Result<(u16, Scan<'a>), Stop>
        ensures { result ≡ number_at 2 self.entry }
    {
        let (bytes, scan) = self.take(2)?;
        Ok((BigEndian::read_u16(bytes.get()), scan))
    }

    /// An unsigned number of four bytes.
    pub fn u32(self) -> Result<(u32, Scan<'a>), Stop>
        ensures { result ≡ number_at 4 self.entry }
    {
        let (bytes, scan) = self.take(4)?;
        Ok((BigEndian::read_u32(bytes.get()), scan))
    }

    /// An unsigned number of eight bytes.
    pub fn u64(self) -> Result<(u64, Scan<'a>), Stop>
        ensures { result ≡ number_at 8 self.entry }
    {
        let (bytes, scan) = self.take(8)?;
        Ok((BigEndian::read_u64(bytes.get()), scan))
    }

    /// One more index field or member.
    pub fn note(self, one: Use) -> Result<Scan<'a>, NoMemory>
        ensures { IfOk result (λ scan. scan ≡ noted one self.entry) }
    {
        let Scan { file, at, mut uses } = self;
        uses.push(one)?;
        Ok(Scan { file, at, uses })
    }

    /// An index field, which is to name an entry of the constant pool.
    pub fn index(self, wanted: Wanted) -> Result<(u16, Scan<'a>), Stop>
        ensures { OrNoMemory result (index_at wanted self.entry) }
    {
        let at = self.at();
        let (index, scan) = self.u16()?;
        let scan = scan.note(Use::Index { at, index, wanted })?;
        Ok((index, scan))
    }
}
