// Writing a member's letter from its entries and the published sheet.
ghost use Rattle.std.specs.Prelude.{◌≡◌, ◌+◌, ◌*◌, ◌<◌, ◌≤◌, length};
ghost use Rattle.std.specs.List.{flat_map};
ghost use Rattle.sheet.specs.Writing.{written_at};
ghost use Rattle.letter.specs.Lines.{line_bytes};
ghost use Rattle.letter.specs.Telling.{lines_by, letter_by, answer_by, allowed, sheet_checked, letter_written};
ghost use Rattle.letter.specs.Statements.{OfEvening};

use crate::bytes::put_line;
use crate::line::Line;
use orders::{Entry, Extent, Part, Refusal};
use sheet::{Section, put};

// What is known of an evening that is closed: its extent, the entries that it was closed with, member by member
// for each kind, and the published sheet.
#[derive(Clone, Copy)]
pub struct Published<'a> {
    pub extent: Extent,
    pub entries: &'a [u32],
    pub sheet: &'a [u8],
}

impl Published<'_> {
    // Writes the member's lines behind the head, as far as the sheet goes, and answers how many they are.
    fn write_lines(self, member: u16, letter: &mut [u8]) -> u8
        requires member { member < self.extent.members }
        requires entries { self.extent.kinds * self.extent.members ≤ length self.entries.now }
        requires room { 3 + 28 * self.extent.kinds ≤ length letter.old }
        ensures count { result ≡ length (lines_by self.entry member) }
        ensures few { result ≤ self.entry.extent.kinds }
        ensures bytes { letter.new ≡ written_at 3 (flat_map line_bytes (lines_by self.entry member)) letter.old }
    {
        let rows = self.entries.chunks_exact(usize::from(self.extent.members));
        let mut rest = self.sheet;
        let mut lines = 0;
        for (kind, row) in (0..self.extent.kinds).zip(rows) {
            let Some((section, after)) = Section::read(rest) else {
                break;
            };
            rest = after;
            let entry = Entry::standing(row[usize::from(member)]);
            if let Some(line) = Line::of_entry(kind, member, entry, section) {
                put_line(letter, Line::place(lines), &line);
                lines += 1;
            }
        }
        lines
    }

    // What is asked before a letter is written.
    fn allows(self, member: u16, room: usize) -> Result<(), Refusal>
        ensures { result ≡ allowed self.entry.extent.kinds self.entry.extent.members (length self.entry.entries.now) member room }
    {
        self.extent.check()?;
        if self.extent.members <= member {
            return Err(Refusal::NoMember);
        }
        if self.entries.len() < self.extent.slots() {
            return Err(Refusal::Short(Part::Entries));
        }
        if room < Line::place(self.extent.kinds) {
            return Err(Refusal::Short(Part::Sheet));
        }
        Ok(())
    }

    // Refuses a sheet that ends before its last kind.
    fn check_sheet(self) -> Result<(), Refusal>
        ensures { result ≡ sheet_checked self.entry.extent.kinds self.entry.sheet.now }
    {
        let mut rest = self.sheet;
        for _kind in 0..self.extent.kinds {
            let (_, after) = Section::read(rest).ok_or(Refusal::Ends(self.sheet.len()))?;
            rest = after;
        }
        Ok(())
    }

    // Writes the letter, and answers how long it is.
    fn write(self, member: u16, letter: &mut [u8]) -> usize
        requires member { member < self.extent.members }
        requires entries { self.extent.kinds * self.extent.members ≤ length self.entries.now }
        requires room { 3 + 28 * self.extent.kinds ≤ length letter.old }
        ensures end { result ≡ length (letter_by self.entry member) }
        ensures bytes { letter.new ≡ written_at 0 (letter_by self.entry member) letter.old }
    {
        let lines = self.write_lines(member, letter);
        let [low, high] = member.to_le_bytes();
        let _head = put(letter, 0, &[low, high, lines]);
        Line::place(lines)
    }

    // Writes what any sheet tells the member.
    fn write_told(self, member: u16, letter: &mut [u8]) -> Result<usize, Refusal>
        ensures answer { result ≡ answer_by self.entry member (length letter.old) }
        ensures letter { letter.new ≡ letter_written result (letter_by self.entry member) letter.old }
    {
        self.allows(member, letter.len())?;
        self.check_sheet()?;
        Ok(self.write(member, letter))
    }

    // Writes the letter of a member from the beginning of lent bytes on, and answers how long it is. A refusal changes nothing.
    pub fn write_letter(self, member: u16, letter: &mut [u8]) -> Result<usize, Refusal>
        ensures answer { result ≡ answer_by self.entry member (length letter.old) }
        ensures letter { letter.new ≡ letter_written result (letter_by self.entry member) letter.old }
        ensures evening { OfEvening self.entry.extent.kinds self.entry.extent.members self.entry.entries.now self.entry.sheet.now member result letter.old letter.new }
    {
        self.write_told(member, letter)
    }
}
