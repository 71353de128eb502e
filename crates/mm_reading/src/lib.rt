// What an MM group says: the text and the sequence give the called positions back. Definitions and proofs only, over mm_ml's.
// Uses lists, refusals, decimal, dna, methylation, methylation_calls and mm_ml.
#![tactic(auto)]
