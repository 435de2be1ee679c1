// What the rule promises. The contract of each function here is a theorem, and the function does nothing else.
ghost use Rattle.clearing.specs.Statements.{Ranks, HigherBidFirst, LowerAskFirst, TieRule, LowerMemberFirst, PairsFirst, TrueBids, TrueAsks, CriticalBid, CriticalAsk, BidMovesNoPrice, AskMovesNoPrice, PaysAtMostBid, GetsAtLeastAsk, FundNeverPays, AsManyBuy, AsManySell, AllButOne, LeastLeft, NoTwoLeft, LeftGainLeast, GreatestGain, MostAtOnePrice, MoreMayGain, EveningsTold, OnlyTheFirst, WithinBounds};

// A rank is how many come before; no two have the same, and none is empty.
pub fn ranks()
    ensures { Ranks }
{}

// A higher bid has the lower rank.
pub fn higher_bid_first()
    ensures { HigherBidFirst }
{}

// A lower ask has the lower rank.
pub fn lower_ask_first()
    ensures { LowerAskFirst }
{}

// Of two with one number, the lower tie number has the lower rank.
pub fn tie_rule()
    ensures { TieRule }
{}

// Today that is the lower member.
pub fn lower_member_first()
    ensures { LowerMemberFirst }
{}

// The ranks that are pairs come first, without a gap.
pub fn pairs_first()
    ensures { PairsFirst }
{}

// A buyer's true worth is its best bid.
pub fn true_bids()
    ensures { TrueBids }
{}

// A seller's true cost is its best ask.
pub fn true_asks()
    ensures { TrueAsks }
{}

// Others fixed, a buyer has one price, and buys if its bid is above it.
pub fn critical_bid()
    ensures { CriticalBid }
{}

// Others fixed, a seller has one price, and sells if its ask is below it.
pub fn critical_ask()
    ensures { CriticalAsk }
{}

// What a buyer pays does not depend on its own bid.
pub fn bid_moves_no_price()
    ensures { BidMovesNoPrice }
{}

// What a seller gets does not depend on its own ask.
pub fn ask_moves_no_price()
    ensures { AskMovesNoPrice }
{}

// A buyer pays at most its bid.
pub fn pays_at_most_bid()
    ensures { PaysAtMostBid }
{}

// A seller gets at least its ask.
pub fn gets_at_least_ask()
    ensures { GetsAtLeastAsk }
{}

// What buyers pay is what sellers get and what the fund gets.
pub fn fund_never_pays()
    ensures { FundNeverPays }
{}

// As many members buy as there are trades.
pub fn as_many_buy()
    ensures { AsManyBuy }
{}

// And as many sell.
pub fn as_many_sell()
    ensures { AsManySell }
{}

// All pairs trade, or all but one.
pub fn all_but_one()
    ensures { AllButOne }
{}

// A pair left out gains least.
pub fn least_left()
    ensures { LeastLeft }
{}

// Of those who did not trade, no two disjoint pairs could gain.
pub fn no_two_left()
    ensures { NoTwoLeft }
{}

// And none could gain more than a pair of ranks that traded.
pub fn left_gain_least()
    ensures { LeftGainLeast }
{}

// No matching has a greater gain than the pairs of ranks.
pub fn greatest_gain()
    ensures { GreatestGain }
{}

// No matching at one price has more pairs.
pub fn most_at_one_price()
    ensures { MostAtOnePrice }
{}

// A matching at several prices may have more.
pub fn more_may_gain()
    ensures { MoreMayGain }
{}

// The evenings of the table are by the rule.
pub fn evenings_told()
    ensures { EveningsTold }
{}

// One rank past the pairs, of either side, gives the outcome.
pub fn only_the_first()
    ensures { OnlyTheFirst }
{}

// No price passes twice the highest number.
pub fn within_bounds()
    ensures { WithinBounds }
{}
