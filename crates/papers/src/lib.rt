// Values that the public papers define, as claims about the definitions: SAMtags, the SAM specification and fgbio's page on duplex
// consensus reads. specs/Papers.antt states them, proofs/ has the proofs. There is no code. Uses lists, dna, phred, flags, decimal,
// line_output, methylation, methylation_calls, methylation_evidence, mm_ml, mm_reading, duplex_molecule, duplex_position, duplex_call,
// duplex_min_reads, duplex_reads and duplex_metrics.
#![tactic(auto)]
