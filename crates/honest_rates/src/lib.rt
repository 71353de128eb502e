// What the error rates say, of every call that returns one, as claims about the definitions: specs/HonestRates.antt states them,
// proofs/HonestRates.antt proves them. There is no code. Uses lists, refusals, numbers, rates, byte_numbers, decimal, hexadecimal
// and the crates of the metrics, of the encoded molecule, of the printed line and of the entries for C.
#![tactic(auto)]
