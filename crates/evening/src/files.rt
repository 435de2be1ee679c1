// The files of an evening: what each member has after it, and from what everybody can check it: its entries, its sheet, and a
// letter for each member with an entry.
use letter::{Line, Published};
use orders::Extent;
use sheet::entries_file;
use std::alloc::AllocError;
use std::{fs, io};

// The most that a letter takes.
const LETTER: usize = Line::HEAD + Line::BYTES * Extent::KINDS_MOST as usize;

#[derive(Clone, Copy)]
pub struct Files<'a> {
    pub directory: &'a str,
    // after closing
    pub accounts: &'a [u64],
    pub berths: &'a [u8],
}

impl Files<'_> {
    // Writes them all, and says which can't be written. Answers whether all are.
    pub(crate) fn write(self, rt: &HostRuntime, published: Published<'_>) -> io::Result<bool> {
        if let Err(e) = fs::create_dir_all(rt, self.directory) {
            eprintln!(rt; "evening: {} can't be made: {e}", self.directory)?;
            return Ok(false);
        }
        let Published {
            extent,
            entries,
            sheet,
        } = published;
        let entries = entries_file(rt.alloc(), extent, entries)?;
        let mut all = self.put(rt, "entries.bin", entries.as_slice())?;
        all = self.put(rt, "sheet.bin", sheet)? && all;
        let accounts = self.account_bytes(rt)?;
        all = self.put(rt, "accounts.bin", accounts.as_slice())? && all;
        all = self.put(rt, "berths.bin", self.berths)? && all;
        Ok(self.letters(rt, published)? && all)
    }

    // Each account in half cents, eight bytes, the lowest first.
    fn account_bytes(self, rt: &HostRuntime) -> Result<Vec<u8>, AllocError> {
        let mut bytes = Vec::new(rt.alloc());
        for account in self.accounts {
            bytes.extend_from_slice(&account.to_le_bytes())?;
        }
        Ok(bytes)
    }

    fn letters(self, rt: &HostRuntime, published: Published<'_>) -> io::Result<bool> {
        let mut all = true;
        let mut letter = vec![in rt.alloc(); 0u8; LETTER]?;
        for member in 0..published.extent.members {
            match published.write_letter(member, letter.as_mut_slice()) {
                Ok(size) if size > Line::HEAD => {
                    let name = format!(in rt.alloc(); "letter-{member}.bin")?;
                    all = self.put(
                        rt,
                        name.as_str(),
                        &letter.as_slice()[0..size.min(letter.len())],
                    )? && all;
                }
                Ok(_) => {}
                Err(refusal) => {
                    let number = refusal.number();
                    eprintln!(rt; "evening: there is no letter for {member}: refused {number}")?;
                    all = false;
                }
            }
        }
        Ok(all)
    }

    // Writes one file, and says so where it can't be written.
    fn put(self, rt: &HostRuntime, name: &str, bytes: &[u8]) -> io::Result<bool> {
        let path = format!(in rt.alloc(); "{}/{name}", self.directory)?;
        match fs::write(rt, path.as_str(), bytes) {
            Ok(()) => Ok(true),
            Err(e) => {
                eprintln!(rt; "evening: {path} can't be written: {e}")?;
                Ok(false)
            }
        }
    }
}
