// Two strands combined position by position, from duplex_caller.rs (combine_strands): what refuses them, what is written of them
// (specs/Combine.antt), and the call for strands without annotation. Uses lists, refusals, settings, methylation, vanilla_caller,
// duplex_molecule, duplex_arrays, duplex_evidence and duplex_outputs, and a law of duplex_call.
#![tactic(auto)]

ghost use Rattle.std.specs.Prelude.{◌≡◌, None};
ghost use Rattle.refusals.specs.Refusal.{refused};
ghost use Rattle.refusals.specs.Outcome.{answer};
ghost use Rattle.settings.specs.Settings.{given_of};
ghost use Rattle.methylation.specs.Outputs.{no_evidence};
ghost use Rattle.vanilla_caller.specs.Strand.{arrays_in};
ghost use Rattle.duplex_molecule.specs.declared.CtInput.TheVariants.{Neither};
ghost use Rattle.duplex_outputs.specs.Lent.{record_out, SameOutputs};
ghost use Rattle.duplex_strands.specs.Combine.{common_length, combine_faults, CombinedAs};

use duplex_arrays::{PositionOutputs, write_errors, write_positions};
use duplex_molecule::CtInput;
use duplex_outputs::{RecordLengths, RecordOutputs, record_too_short};
use refusals::{Refusal, refuse};
use settings::Settings;
use vanilla_caller::{Lengths, VanillaConsensusRead, strand_ragged, strand_too_long};

// How many positions two strands have in common. A and B are two operands, here and below: each caller has them as two.
pub fn common_length(a: Lengths, b: Lengths) -> usize
    ensures { result ≡ common_length a b }
{
    a.bases.min(b.bases)
}

// How many positions of strands and outputs of these lengths are combined. Refuses by 7, 8, 12.
// Inlined for speed (duplex_record).
#[inline(always)]
pub fn combined_length(a: Lengths, b: Lengths, out: RecordLengths) -> Result<usize, Refusal>
    ensures { result ≡ answer (refused (combine_faults a b out)) (common_length a b) }
{
    let n = common_length(a, b);
    refuse(strand_too_long(a) | strand_too_long(b), Refusal::TooLong)?;
    refuse(strand_ragged(a) | strand_ragged(b), Refusal::Ragged)?;
    refuse(record_too_short(n, out), Refusal::OutputTooShort)?;
    Ok(n)
}

// Combines strands without their annotations, which are not looked at. Where reads are listed the errors are left 0. Refuses by 7,
// 8, 12.
// Of a list only whether there is one counts here. The body is that of duplex_annotated's call without its evidence: that call is made of
// what stands here, so this one cannot be made of it without leaving this crate, which promises it.
pub fn combine_strands(
    settings: Settings,
    a: VanillaConsensusRead,
    b: VanillaConsensusRead,
    listed: bool,
    out: &mut RecordOutputs<'_>,
) -> Result<usize, Refusal>
    ensures same_references { SameOutputs out.old out.new }
    ensures combined { CombinedAs (given_of settings) Neither None (arrays_in a.entry) None (arrays_in b.entry) listed
        (record_out out.old no_evidence no_evidence)
        (record_out out.new no_evidence no_evidence)
        result }
{
    let a = a.plain();
    let b = b.plain();
    let room = out.lengths(None, None);
    let n = combined_length(a.lengths(), b.lengths(), room)?;
    let mut positions = PositionOutputs {
        bases: &mut *out.bases,
        quals: &mut *out.quals,
    };
    write_positions(settings.ceiling, CtInput::Neither, a, b, n, &mut positions);
    write_errors(CtInput::Neither, listed, a, b, n, out.errors);
    Ok(n)
}
