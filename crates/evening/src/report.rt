// What an evening prints.
use orders::{HalfCents, Refusal};
use sheet::{Row, Section};
use std::alloc::AllocError;
use std::io;
use std::io::{BufWriter, Stdout, Write};

#[derive(Drop)]
pub struct Report {
    out: BufWriter<Stdout>,
}

impl Report {
    pub(crate) fn new(rt: &HostRuntime) -> Result<Report, AllocError> {
        let out = BufWriter::new(rt.alloc(), rt.stdout()).map_err(|_| AllocError)?;
        Ok(Report { out })
    }

    // The refused messages, by their places in the input.
    pub(crate) fn answers(&mut self, answers: &[Result<(), Refusal>]) -> io::Result<()> {
        for (i, answer) in answers.iter().enumerate() {
            if let Err(refusal) = answer {
                writeln!(self.out, "message {i} {refusal}")?;
            }
        }
        Ok(())
    }

    // All kinds, as the sheet tells them.
    pub(crate) fn kinds(&mut self, kinds: u8, sheet: &[u8]) -> io::Result<()> {
        let mut rest = sheet;
        for kind in 0..kinds {
            let Some((section, after)) = Section::read(rest) else {
                break;
            };
            self.kind(kind, section)?;
            self.side("buys", section.buyers, section.trades, section.buyers_price)?;
            self.side(
                "sells",
                section.sellers,
                section.trades,
                section.sellers_price,
            )?;
            rest = after;
        }
        Ok(())
    }

    // A kind's line.
    fn kind(&mut self, kind: u8, section: Section) -> io::Result<()> {
        let Section { pairs, trades, .. } = section;
        let HalfCents(pay) = section.buyers_price;
        let HalfCents(get) = section.sellers_price;
        let fund = u128::from(trades) * u128::from(pay.saturating_sub(get));
        writeln!(
            self.out,
            "kind {kind} pairs {pairs} trades {trades} buyers {pay} sellers {get} fund {fund}",
        )
    }

    // Those of a side who trade, in the order of ranks.
    fn side(&mut self, verb: &str, row: Row, trades: u16, price: HalfCents) -> io::Result<()> {
        let HalfCents(price) = price;
        for ranked in (0..usize::from(trades)).filter_map(|rank| row.get(rank)) {
            let member = ranked.member;
            writeln!(self.out, "member {member} {verb} {price}")?;
        }
        Ok(())
    }

    // The last line; then all is written.
    pub(crate) fn fund(&mut self, fund: HalfCents) -> io::Result<()> {
        let HalfCents(fund) = fund;
        writeln!(self.out, "fund {fund}")?;
        self.out.flush()
    }
}
