// A file of the entries of an evening: writing it, and reading it from any bytes.
ghost use Rattle.std.specs.Prelude.{◌≡◌, ◌/◌, length, drop, IfOk};
ghost use Rattle.std.specs.Result.{result_err};
ghost use Rattle.orders.specs.Inputs.{kinds_in, members_in};
ghost use Rattle.sheet.specs.EntryFiles.{file_of, refused_file, file_refusal, codes_in, file_answer, UnlessMemory};

use crate::checking::check;
use orders::{Extent, Input, Part, Refusal};
use std::alloc::{AllocError, Global};

// The bytes before the entries, and those of an entry.
const HEAD: usize = 3;

const CODE: usize = 4;

// A file whose kinds and members are in range, and which has neither too few nor too many entries.
#[derive(Clone, Copy)]
pub struct EntriesFile<'a> {
    pub extent: Extent,
    // the entries, kind by kind
    pub bytes: &'a [u8],
}

// Whether a file of so many bytes is taken.
fn check_size(extent: Extent, size: usize) -> Result<(), Refusal>
    ensures { result_err result ≡ refused_file extent.kinds extent.members size }
{
    extent.check()?;
    let end = HEAD + CODE * extent.slots();
    if size < end {
        return Err(Refusal::Short(Part::Entries));
    }
    if size > end {
        return Err(Refusal::GoesOn(end));
    }
    Ok(())
}

impl EntriesFile<'_> {
    pub fn read(bytes: &[u8]) -> Result<EntriesFile<'_>, Refusal>
        ensures refusal { result_err result ≡ file_refusal bytes.now }
        ensures kinds { IfOk result (λ f. f.extent.kinds ≡ kinds_in bytes.now) }
        ensures members { IfOk result (λ f. f.extent.members ≡ members_in bytes.now) }
        ensures bytes { IfOk result (λ f. f.bytes.now ≡ drop 3 bytes.now) }
    {
        // the file begins as the bytes of an evening do
        let extent = Input::read(bytes).extent;
        check_size(extent, bytes.len())?;
        Ok(EntriesFile {
            extent,
            bytes: &bytes[HEAD..],
        })
    }

    // The codes of the entries.
    pub fn codes(&self, heap: Global) -> Result<Vec<u32>, AllocError>
        ensures { IfOk result (λ v. v.items ≡ codes_in self.now.bytes.now (length self.now.bytes.now / 4)) }
    {
        let (codes, _) = self.bytes.as_chunks::<CODE>();
        codes
            .iter()
            .map(|code| u32::from_le_bytes(*code))
            .collect(heap)
    }
}

// The file of the entries of an evening.
pub fn entries_file(heap: Global, extent: Extent, codes: &[u32]) -> Result<Vec<u8>, AllocError>
    ensures { IfOk result (λ v. v.items ≡ file_of extent.kinds extent.members codes.now) }
{
    let mut bytes = Vec::new(heap);
    bytes.push(extent.kinds)?;
    bytes.extend_from_slice(&extent.members.to_le_bytes())?;
    for code in codes {
        bytes.extend_from_slice(&code.to_le_bytes())?;
    }
    Ok(bytes)
}

// Checks a sheet against a file of entries.
pub fn check_file(heap: Global, entries: &[u8], sheet: &[u8]) -> Result<(), Refusal>
    ensures { UnlessMemory (file_answer entries.now sheet.now) result }
{
    let file = EntriesFile::read(entries)?;
    let codes = file.codes(heap)?;
    check(file.extent, codes.as_slice(), sheet)
}
