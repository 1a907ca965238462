// The paper's marked cases, as one table under one theorem: there is no code here, see specs/ and proofs/.
#![tactic(auto)]
