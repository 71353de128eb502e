// What the reasons of a position that shows N say of the record, and the entries' answers of the library's call. specs/ states it,
// proofs/ proves it. There is no code. Uses lists, refusals, settings, dna, phred, methylation, vanilla_caller, duplex_molecule,
// duplex_position, duplex_call, duplex_arrays, duplex_outputs, duplex_kind, duplex_record, molecule_strand, molecule_consensus,
// duplex_reason, rust_reason and c_reason.
#![tactic(auto)]
