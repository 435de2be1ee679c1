// The index beside a slow scan of the row of entries.
#![tactic(auto)]

#[cfg(test)]
mod beside_scan;
