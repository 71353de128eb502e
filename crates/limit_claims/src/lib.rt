// What a lab's limit on positions changes in what the entries answer, and what it does not. specs/ states it, proofs/ proves it. There is
// no code. Uses refusals, phred, settings, methylation, replies, vanilla_caller, duplex_molecule, duplex_outputs, duplex_strands,
// duplex_kind, duplex_reply, duplex_record, source_reads, duplex_consensus, molecule_strand, molecule_consensus, c_record, c_interface and
// ceiling_claims.
#![tactic(auto)]
