#![tactic(auto)]

// Refusals that no input of the program brings about: lent memory that is too short, and a closed evening.
#[cfg(test)]
mod tests {
    use orders::{
        Books, Closed, Entry, Extent, HalfCents, Input, Open, Part, Refusal, UnknownCode,
    };
    use std::alloc::AllocError;
    use std::process::Abort;
    use std::test::Fail;

    // One kind and one member.
    const ONE: Extent = Extent {
        kinds: 1,
        members: 1,
    };

    // Opens one kind and two members with one part of memory too short: of the entries, themselves or what is kept beside them.
    fn refused(short: Part, beside: bool) -> Option<Refusal> {
        let mut entries = [9u32; 2];
        let mut numbers = [9u32; 2];
        let mut accounts = [0u64; 2];
        let mut committed = [9u64; 2];
        let mut berths = [0u8; 2];
        let (mut e, mut n, mut a, mut b) = (2, 2, 2, 2);
        match short {
            Part::Entries if beside => n = 1,
            Part::Entries => e = 1,
            Part::Accounts => a = 1,
            Part::Berths => b = 1,
            Part::Sheet => {}
        }
        let mut books = Books {
            entries: &mut entries[0..e],
            numbers: &mut numbers[0..n],
            committed: &mut committed[0..2],
            accounts: &mut accounts[0..a],
            berths: &mut berths[0..b],
        };
        let extent = Extent {
            kinds: 1,
            members: 2,
        };
        Open::open(extent, HalfCents(0), &mut books).err()
    }

    fn told(
        rt: &impl Abort,
        refusal: Option<Refusal>,
        number: u8,
        place: usize,
    ) -> Result<(), Fail> {
        let refusal = refusal.ok_or("it is not refused")?;
        assert_eq!(rt; refusal.number(), number);
        assert_eq!(rt; refusal.place(), place);
        Ok(())
    }

    #[test]
    fn short_memory_does_not_open(rt: HostRuntime) -> Result<(), Fail> {
        told(&rt, refused(Part::Entries, false), 11, 0)?;
        told(&rt, refused(Part::Entries, true), 11, 0)?;
        told(&rt, refused(Part::Accounts, false), 11, 1)?;
        told(&rt, refused(Part::Berths, false), 11, 2)?;
        assert!(rt; refused(Part::Sheet, false).is_none());
        Ok(())
    }

    #[test]
    fn short_memory_takes_no_message(rt: HostRuntime) -> Result<(), Fail> {
        let mut entries = [0u32; 1];
        let mut numbers = [0u32; 1];
        let mut committed = [0u64; 1];
        let mut accounts = [0u64; 1];
        let mut berths = [0u8; 1];
        let mut books = Books {
            entries: &mut entries,
            numbers: &mut numbers,
            committed: &mut committed,
            accounts: &mut accounts,
            berths: &mut berths,
        };
        let open = Open::open(ONE, HalfCents(0), &mut books)?;
        let mut none = [0u32; 0];
        let mut short = Books {
            entries: &mut none,
            numbers: &mut numbers,
            committed: &mut committed,
            accounts: &mut accounts,
            berths: &mut berths,
        };
        told(&rt, open.enter(&mut short, &[0; 12]).err(), 11, 0)
    }

    #[test]
    fn closed_evening_refuses(rt: HostRuntime) -> Result<(), Fail> {
        let mut entries = [5u32; 1];
        let mut numbers = [6u32; 1];
        let mut committed = [0u64; 1];
        let mut accounts = [0u64; 1];
        let mut berths = [0u8; 1];
        let mut books = Books {
            entries: &mut entries,
            numbers: &mut numbers,
            committed: &mut committed,
            accounts: &mut accounts,
            berths: &mut berths,
        };
        let closed = Closed {
            extent: ONE,
            fund: HalfCents(7),
        };
        let (closed, message) = closed.take(&mut books, &[0; 12]);
        let (closed, closing) = closed.close();
        told(&rt, message.err(), 1, 0)?;
        told(&rt, closing.err(), 1, 0)?;
        assert_eq!(rt; closed.fund.0, 7);
        Ok(())
    }

    #[test]
    fn refusals_are_printed(rt: HostRuntime) -> Result<(), Fail> {
        let alloc = rt.alloc();
        for (refusal, text) in [
            (Refusal::Length(11), "refused 2 at 11"),
            (Refusal::Fund, "refused 10 at 2000"),
            (Refusal::Short(Part::Berths), "refused 11 at 2"),
        ] {
            assert_eq!(rt; format!(in alloc; "{refusal}")?.as_str(), text);
        }
        Ok(())
    }

    #[test]
    fn unknown_codes_are_printed(rt: HostRuntime) -> Result<(), Fail> {
        assert_eq!(rt; Entry::try_from(0x100_0000), Err(UnknownCode(0x100_0000)));
        let text = format!(in rt.alloc(); "{}", UnknownCode(1))?;
        assert_eq!(rt; text.as_str(), "no entry has the number 1");
        Ok(())
    }

    #[test]
    fn accounts_are_read(rt: HostRuntime) -> Result<(), Fail> {
        let bytes = [
            1, 2, 0, 0, 0, 0, 0, 0, 0, 0, 0, 1, 0, 0, 0, 2, 1, 0, 0, 3, 4,
        ];
        let input = Input::read(&bytes);
        let accounts = input.half_cents(rt.alloc())?;
        assert!(rt; accounts.as_slice() == [2u64, 516].as_slice());
        assert!(rt; input.berths == [3u8, 4].as_slice());
        Ok(())
    }

    #[test]
    fn want_of_memory(rt: HostRuntime) -> Result<(), Fail> {
        told(&rt, Some(Refusal::Memory), 255, 0)?;
        assert_eq!(rt; Refusal::from(AllocError), Refusal::Memory);
        told(&rt, Some(Refusal::Short(Part::Sheet)), 11, 3)
    }
}
