// Lines by hand: those that follow, and those with numbers that no evening gives.
use letter::{Line, Pair, Tie};
use orders::{Cents, HalfCents};
use ranking::Side;

fn pair(bid: u32, ask: u32) -> Pair {
    Pair {
        bid: Cents(bid),
        ask: Cents(ask),
    }
}

fn line(side: Side, cents: u32, price: Option<u64>, last: Pair, next: Pair, tie: Tie) -> Line {
    Line {
        kind: 0,
        side,
        cents: Cents(cents),
        price: price.map(HalfCents),
        last,
        next,
        tie,
    }
}

// Bids 9 7 5, asks 4 5 8: all pairs trade at 13 half cents.
#[test]
fn one_price(rt: HostRuntime) {
    let (last, next) = (pair(7, 5), pair(5, 8));
    assert!(rt; line(Side::Buyers, 9, Some(13), last, next, Tie::NoTie).follows());
    assert!(rt; line(Side::Buyers, 7, Some(13), last, next, Tie::At).follows());
    assert!(rt; line(Side::Buyers, 5, None, last, next, Tie::NoTie).follows());
    assert!(rt; line(Side::Sellers, 5, Some(13), last, next, Tie::At).follows());
    assert!(rt; !line(Side::Buyers, 7, None, last, next, Tie::At).follows());
    assert!(rt; !line(Side::Buyers, 9, Some(14), last, next, Tie::NoTie).follows());
    assert!(rt; !line(Side::Sellers, 8, Some(13), last, next, Tie::NoTie).follows());
}

// Bids 9 9 9, asks 1 1 1: the last pair does not trade, and the members of a tie are told apart.
#[test]
fn two_prices(rt: HostRuntime) {
    let (last, next) = (pair(9, 1), pair(0, 0));
    assert!(rt; line(Side::Buyers, 9, Some(18), last, next, Tie::Before).follows());
    assert!(rt; line(Side::Buyers, 9, None, last, next, Tie::At).follows());
    assert!(rt; line(Side::Sellers, 1, Some(2), last, next, Tie::Before).follows());
    assert!(rt; !line(Side::Buyers, 9, Some(18), last, next, Tie::At).follows());
    assert!(rt; !line(Side::Buyers, 9, Some(18), last, next, Tie::NoTie).follows());
    assert!(rt; !line(Side::Buyers, 9, Some(2), last, next, Tie::Before).follows());
}

// A member after the last pair with its number: the next number is there, and it is the same.
#[test]
fn after_the_last_pair(rt: HostRuntime) {
    assert!(rt; line(Side::Buyers, 7, None, pair(7, 5), pair(7, 0), Tie::After).follows());
    assert!(rt; line(Side::Sellers, 5, None, pair(7, 5), pair(4, 5), Tie::After).follows());
    assert!(rt;
        !line(
            Side::Sellers,
            5,
            Some(9),
            pair(7, 5),
            pair(4, 5),
            Tie::After,
        )
        .follows()
    );
    assert!(rt; !line(Side::Sellers, 5, None, pair(7, 5), pair(4, 6), Tie::After).follows());
}

// Without a pair nobody trades.
#[test]
fn no_pair(rt: HostRuntime) {
    assert!(rt; line(Side::Buyers, 4, None, pair(0, 0), pair(5, 6), Tie::NoTie).follows());
    assert!(rt; line(Side::Sellers, 6, None, pair(0, 0), pair(0, 6), Tie::NoTie).follows());
    assert!(rt;
        !line(
            Side::Buyers,
            4,
            Some(11),
            pair(0, 0),
            pair(5, 6),
            Tie::NoTie,
        )
        .follows()
    );
    assert!(rt; !line(Side::Buyers, 6, None, pair(0, 0), pair(5, 6), Tie::NoTie).follows());
}

// Numbers that no evening gives.
#[test]
fn impossible_next_numbers(rt: HostRuntime) {
    // next numbers that are a pair; a next bid above the last; a next ask below the last
    assert!(rt;
        !line(
            Side::Buyers,
            9,
            Some(11),
            pair(7, 5),
            pair(6, 5),
            Tie::NoTie,
        )
        .follows()
    );
    assert!(rt;
        !line(
            Side::Buyers,
            9,
            Some(14),
            pair(7, 5),
            pair(8, 0),
            Tie::NoTie,
        )
        .follows()
    );
    assert!(rt;
        !line(
            Side::Buyers,
            9,
            Some(14),
            pair(7, 5),
            pair(0, 4),
            Tie::NoTie,
        )
        .follows()
    );
}

#[test]
fn impossible_last_pairs(rt: HostRuntime) {
    // a last pair that is none, or half there
    assert!(rt;
        !line(
            Side::Buyers,
            9,
            Some(14),
            pair(7, 8),
            pair(0, 0),
            Tie::NoTie,
        )
        .follows()
    );
    assert!(rt; !line(Side::Buyers, 9, None, pair(0, 8), pair(9, 0), Tie::NoTie).follows());
}

#[test]
fn numbers_out_of_range(rt: HostRuntime) {
    // a number of no cents, or of too many
    assert!(rt; !line(Side::Sellers, 0, None, pair(0, 0), pair(0, 5), Tie::NoTie).follows());
    assert!(rt;
        !line(
            Side::Sellers,
            10_000_001,
            None,
            pair(0, 0),
            pair(0, 5),
            Tie::NoTie,
        )
        .follows()
    );
    assert!(rt;
        !line(
            Side::Sellers,
            6,
            None,
            pair(0, 0),
            pair(10_000_001, 5),
            Tie::NoTie,
        )
        .follows()
    );
}

#[test]
fn members_nowhere(rt: HostRuntime) {
    // a member that is nowhere: worse than the last pair, and no next number is there
    assert!(rt; !line(Side::Buyers, 5, None, pair(7, 5), pair(0, 0), Tie::NoTie).follows());
    assert!(rt; !line(Side::Buyers, 7, None, pair(7, 5), pair(6, 0), Tie::After).follows());
}
