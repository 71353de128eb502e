// What a lab's ceiling of qualities changes in records and in what the entries answer, and what it does not. specs/ states it, proofs/
// proves it. There is no code. Uses lists, refusals, dna, phred, settings, methylation, replies, byte_numbers, molecule_evidence,
// vanilla_caller, duplex_molecule, duplex_position, duplex_call, duplex_arrays, duplex_outputs, duplex_strands, duplex_kind,
// duplex_reply, duplex_record, source_reads, duplex_consensus, positions, molecule_strand, molecule_reads, molecule_errors,
// molecule_consensus, c_record and c_interface.
#![tactic(auto)]
