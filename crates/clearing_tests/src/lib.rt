#![tactic(auto)]

// Evenings of one kind, run through the clearing rule.
#[cfg(test)]
mod tests {
    use clearing::{clear, count_pairs};
    use orders::{Cents, HalfCents};
    use ranking::{Ranked, Side};
    use std::test::Fail;

    fn at(member: u16, cents: u32) -> Ranked {
        Ranked {
            member,
            cents: Cents(cents),
        }
    }

    // Bids 10 7 6 5, asks 3 5 6 7: three pairs, the last at 6 and 6, and the price from 5 and 7 is 6.
    #[test]
    fn last_pair_at_the_price(rt: HostRuntime) -> Result<(), Fail> {
        let buyers = [at(0, 10), at(1, 7), at(2, 6), at(3, 5)];
        let sellers = [at(4, 3), at(5, 5), at(6, 6), at(7, 7)];
        assert_eq!(rt; count_pairs(&buyers, &sellers), 3);
        let outcome = clear(&buyers, &sellers);
        assert_eq!(rt; outcome.trades(), 3);
        assert_eq!(rt; outcome.price(Side::Buyers).0, 12);
        assert_eq!(rt; outcome.price(Side::Sellers).0, 12);
        let HalfCents(takings) = outcome.fund().ok_or("the fund's takings pass 64 bits")?;
        assert_eq!(rt; takings, 0);
        Ok(())
    }
}
