// The rule: pairs, prices and the outcome of a kind, from its two ranked lists.
ghost use Rattle.std.specs.Prelude.{◌≡◌, ◌≤◌, length};
ghost use Rattle.clearing.specs.Rule.{cents_of, pairs, middle_at, outcome_of, cleared};
ghost use Rattle.clearing.specs.Statements.{PromisedTo};

use crate::outcome::Outcome;
use orders::{Cents, HalfCents};
use ranking::Ranked;

// How many ranks, from 0 up, have a buyer and a seller whose ask is at most the bid.
pub fn count_pairs(buyers: &[Ranked], sellers: &[Ranked]) -> usize
    ensures pairs { result ≡ pairs (cents_of buyers.now) (cents_of sellers.now) }
    ensures within { (result ≤ length buyers.now) × (result ≤ length sellers.now) }
{
    buyers
        .iter()
        .zip(sellers)
        .take_while(|(buyer, seller)| seller.cents <= buyer.cents)
        .count()
}

// The outcome of a kind. Where the two lists are the ranked lists of a row of entries, it keeps what the members of the
// row were promised.
pub fn clear(buyers: &[Ranked], sellers: &[Ranked]) -> Outcome
    ensures rule { result ≡ cleared (cents_of buyers.now) (cents_of sellers.now) }
    ensures promised { PromisedTo buyers.now sellers.now result }
{
    settle(buyers, sellers, count_pairs(buyers, sellers))
}

// The outcome of so many pairs.
fn settle(buyers: &[Ranked], sellers: &[Ranked], count: usize) -> Outcome
    requires { (count ≤ length buyers.now) × (count ≤ length sellers.now) }
    ensures { result ≡ outcome_of count (cents_of buyers.now) (cents_of sellers.now) }
{
    let Some(last) = count.checked_sub(1) else {
        return Outcome::NoTrade;
    };
    let bid = HalfCents::from(buyers[last].cents);
    let ask = HalfCents::from(sellers[last].cents);
    let middle = next_middle(buyers, sellers, count);
    match middle.filter(|price| ask <= *price && *price <= bid) {
        Some(price) => Outcome::OnePrice {
            trades: count,
            price,
        },
        None if last == 0 => Outcome::NoTrade,
        None => Outcome::TwoPrices {
            trades: last,
            buyers: bid,
            sellers: ask,
        },
    }
}

// The price half way between the bid and the ask of a rank; none where there are not both.
fn next_middle(buyers: &[Ranked], sellers: &[Ranked], rank: usize) -> Option<HalfCents>
    ensures { result ≡ middle_at rank (cents_of buyers.now) (cents_of sellers.now) }
{
    let Cents(bid) = buyers.get(rank).copied()?.cents;
    let Cents(ask) = sellers.get(rank).copied()?.cents;
    Some(HalfCents(u64::from(bid) + u64::from(ask)))
}
