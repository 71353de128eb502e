// The errors of a two-strand record at one position, from duplex_caller.rs (combine_strands): the estimate where no source reads
// are kept. Uses caller.
#![tactic(auto)]

ghost use Rattle.std.specs.Prelude.{◌≡◌};
ghost use Rattle.duplex_errors.specs.Errors.{agreeing, disagreeing};

use caller::clamp_combined_error_to_fgbio_short;

// The strands agree, or there is a call: their errors are added.
#[tactic(auto, using(std::proofs::lemmas::Int::ints), unfolding(crate::specs::Errors::agreeing))]
pub fn estimate_agreeing(a_errors: u16, b_errors: u16) -> u16
    ensures { result ≡ agreeing a_errors b_errors }
{
    clamp_combined_error_to_fgbio_short(i32::from(a_errors) + i32::from(b_errors))
}

// They differ: the winner's errors, and of the loser's reads those that are no errors of its own, which may be below zero.
#[tactic(auto, using(std::proofs::lemmas::Int::ints), unfolding(crate::specs::Errors::disagreeing))]
pub fn estimate_disagreeing(winner_errors: u16, loser_depth: u16, loser_errors: u16) -> u16
    ensures { result ≡ disagreeing winner_errors loser_depth loser_errors }
{
    let differing = i32::from(loser_depth) - i32::from(loser_errors);
    clamp_combined_error_to_fgbio_short(i32::from(winner_errors) + differing)
}
