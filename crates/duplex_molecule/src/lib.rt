// One position of a two-strand molecule, from duplex_caller.rs: the error test and the methylation call. Uses dna and
// methylation.
#![tactic(auto)]

ghost use Rattle.std.specs.Prelude.{◌≡◌};
ghost use Rattle.duplex_molecule.specs.Molecule.{is_error, molecule_call, ct_input, can_call};

use dna::{NO_CALL_BASE, to_ascii_uppercase};
use methylation::ConversionPattern;

// The methylation call at a position.
#[derive(Clone, Copy, Debug, PartialEq, Eq)]
pub struct MoleculeCall {
    // The pattern of the informative strand.
    pub pattern: ConversionPattern,
    // That strand's own base, in its own case.
    pub call: u8,
    // The molecule's base, which the other strand confirms: C or G.
    pub confirmed: u8,
}

// The strand of pattern C to T, where both are annotated and their patterns differ.
#[derive(Clone, Copy, Debug, PartialEq, Eq)]
pub enum CtInput {
    Neither,
    IsA,
    IsB,
}

// Whether both bases are called and differ.
#[tactic(auto, unfolding(crate::specs::Molecule::is_error))]
pub fn is_error(source_base: u8, consensus_base: u8) -> bool
    ensures { result ≡ is_error source_base consensus_base }
{
    (source_base != NO_CALL_BASE)
        & ((consensus_base != NO_CALL_BASE) & (source_base != consensus_base))
}

// The call that the bases of the C-to-T strand and of the G-to-A strand make, if any.
#[tactic(auto, unfolding(crate::specs::Molecule::molecule_call))]
pub fn molecule_call(ct_base: u8, ga_base: u8) -> Option<MoleculeCall>
    ensures { result ≡ molecule_call ct_base ga_base }
{
    let ct = to_ascii_uppercase(ct_base);
    let ga = to_ascii_uppercase(ga_base);
    if ga == b'C' && matches!(ct, b'C' | b'T') {
        return Some(MoleculeCall {
            pattern: ConversionPattern::CToT,
            call: ct_base,
            confirmed: b'C',
        });
    }
    if ct == b'G' && matches!(ga, b'G' | b'A') {
        return Some(MoleculeCall {
            pattern: ConversionPattern::GToA,
            call: ga_base,
            confirmed: b'G',
        });
    }
    None
}

// Which strand is the C-to-T one, of the annotations of A and B.
#[tactic(auto, unfolding(crate::specs::Molecule::ct_input))]
pub fn ct_input(a: Option<ConversionPattern>, b: Option<ConversionPattern>) -> CtInput
    ensures { result ≡ ct_input a b }
{
    match (a, b) {
        (Some(ConversionPattern::CToT), Some(ConversionPattern::GToA)) => CtInput::IsA,
        (Some(ConversionPattern::GToA), Some(ConversionPattern::CToT)) => CtInput::IsB,
        _ => CtInput::Neither,
    }
}

// Whether there may be calls.
pub fn can_call(ct: CtInput) -> bool
    ensures { result ≡ can_call ct }
{
    ct != CtInput::Neither
}
