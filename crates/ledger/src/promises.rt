// What is promised over entries alone. The contract of the function is a theorem, and the function does nothing else.
ghost use Rattle.std.specs.Prelude.{ℕ};
ghost use Rattle.orders.specs.Lent.{Held};
ghost use Rattle.ledger.specs.Statements.{TrueNumbers};

// Of two evenings that differ in nothing but one member's cents, the true numbers leave it worth at least as much.
pub fn true_numbers()
    ensures { (K M : ℕ) (h : Held) → TrueNumbers K M h }
{}
