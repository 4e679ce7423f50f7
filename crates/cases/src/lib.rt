// Document 01's marked cases, as one list that is proved against the definitions (specs/Cases.antt, proofs/Claim.antt). There is no code to run here.
#![tactic(auto)]
