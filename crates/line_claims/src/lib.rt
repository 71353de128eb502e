// What duplexline prints and what the reads of its molecule are, as claims about the definitions: specs/Claims.antt states them, proofs/
// proves them. There is no code. Uses lists, refusals, byte_numbers, fields, molecule_fields, molecule_encoding, molecule_reads and the
// crates of the printed line.
#![tactic(auto)]
