#![tactic(auto)]

// Letters: those of random evenings, and with one thing changed; lines that no evening gives; what the writer refuses; the words on a tie.
#[cfg(test)]
mod evening;
#[cfg(test)]
mod lines;
#[cfg(test)]
mod random;
#[cfg(test)]
mod refusals;
#[cfg(test)]
mod ties;

#[cfg(test)]
use orders::Refusal;

// An answer with the number and the place by which a refusal is made known.
#[cfg(test)]
fn known<T: Drop>(answer: Result<T, Refusal>) -> Result<T, (u8, usize)> {
    answer.map_err(|refusal| (refusal.number(), refusal.place()))
}
