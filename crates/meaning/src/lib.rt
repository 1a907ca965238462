// What words mean: what feeds each lane, and what a word does to the state. There is no code here, see specs/ and proofs/.
#![tactic(auto)]
