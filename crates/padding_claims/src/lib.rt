// What padding does to nc: nothing. specs/NoCalls.antt states it, proofs/NoCalls.antt proves it. There is no code. Uses lists, refusals,
// dna, methylation, vanilla_caller, vanilla_padded, duplex_single and duplex_metrics.
#![tactic(auto)]
