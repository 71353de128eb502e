// Methylation at one position: whether its base is tracked and called, and its ML byte, from methylation.rs. Uses dna and
// methylation.
#![tactic(auto)]

ghost use Rattle.std.specs.Prelude.{◌≡◌};
ghost use Rattle.methylation_calls.specs.Calls.{is_tracked, is_called, methylated, ml_of};

use dna::eq_ignore_ascii_case;
use methylation::{ConversionPattern, Evidence, MethylationMode};

// Whether a base is the letter that the pattern tracks, in any case.
pub fn is_tracked(pattern: ConversionPattern, base: u8) -> bool
    ensures { result ≡ is_tracked pattern base }
{
    eq_ignore_ascii_case(base, pattern.bases().reference)
}

// Whether a base is called: tracked, informative, and with counts above 0.
pub fn is_called(pattern: ConversionPattern, base: u8, evidence: Evidence) -> bool
    ensures { result ≡ is_called pattern base evidence.mark evidence.unconverted evidence.converted }
{
    let counts = u64::from(evidence.unconverted) + u64::from(evidence.converted);
    is_tracked(pattern, base) & ((evidence.mark != 0) & (0 < counts))
}

// The ML byte: 256 times the methylated count over both, rounded down, at most 255. Without counts, and in mode Disabled, 0.
pub fn ml_of(mode: MethylationMode, unconverted: u32, converted: u32) -> u8
    ensures { result ≡ ml_of mode unconverted converted }
{
    let total = u64::from(unconverted) + u64::from(converted);
    if total == 0 {
        return 0;
    }
    let methylated = match mode {
        MethylationMode::Disabled => 0,
        MethylationMode::EmSeq => unconverted,
        MethylationMode::Taps => converted,
    };
    let parts = 256 * u64::from(methylated) / total;
    parts.min(255) as u8
}
