#![tactic(auto)]

// The checker on the sheets of small evenings, each byte changed, each length cut and extended, and on a large evening.
#[cfg(test)]
mod making;
#[cfg(test)]
mod tests;
