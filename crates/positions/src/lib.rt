// Document 01's positions to prove, P1 to P12, as rows of one claim about the definitions: specs/Positions.antt states them,
// proofs/Positions.antt proves them. There is no code. Uses lists, dna, phred, rates, caller, methylation, methylation_calls,
// vanilla_caller, duplex_molecule, duplex_position, duplex_errors, duplex_call and duplex_arrays.
#![tactic(auto)]
