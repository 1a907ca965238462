// The first two demands as statements, in specs/, and theorems alone, in proofs/: what a word writes, what an accepted step leaves, what a pane is
// told beside it, and what a core's facts change.
#![tactic(auto)]
