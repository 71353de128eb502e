// Readings of document 01 that would be wrong, each shut out by a value of the definitions: specs/Misreadings.antt states them,
// proofs/Misreadings.antt proves them. There is no code. Uses lists, numbers, settings, dna, phred, flags, rates, methylation,
// vanilla_caller, duplex_molecule, duplex_position, duplex_errors, duplex_call, duplex_arrays, source_reads, duplex_gate, duplex_depths,
// duplex_metrics, metrics_bits, duplex_outputs, duplex_strands, duplex_kind, duplex_record and duplex_consensus.
#![tactic(auto)]
