// The range of a Phred quality, from phred.rs, and the hold to it. The upper end, 93 in the Rust, is a lab's choice. Uses refusals.
#![tactic(auto)]

ghost use Rattle.std.specs.Prelude.{◌≡◌};
ghost use Rattle.refusals.specs.Outcome.{answer};
ghost use Rattle.refusals.specs.Refusal.{refused};
ghost use Rattle.phred.specs.Phred.{capped_quality, ceiling_faults, told_by};

mod ceiling;

pub use ceiling::Ceiling;
use refusals::{Refusal, refuse};

pub const MIN_PHRED: u8 = 2;

pub const MAX_PHRED: u8 = 93;

// The lowest ceiling: above MIN_PHRED, so that a quality which is not the lowest can be told from one that is.
pub const MIN_CEILING: u8 = 3;

impl Ceiling {
    // Refuses by 14 a ceiling outside 3 to 93.
    pub fn new(value: u8) -> Result<Self, Refusal>
        ensures { told_by result ≡ answer (refused (ceiling_faults value)) value }
    {
        refuse(
            (value < MIN_CEILING) | (MAX_PHRED < value),
            Refusal::CeilingOutside,
        )?;
        Ok(Ceiling { value })
    }

    // That of the Rust.
    pub fn highest() -> Self
        ensures { result.value ≡ 93 }
    {
        Ceiling { value: MAX_PHRED }
    }
}

// A sum or difference of qualities, held to MIN_PHRED and the ceiling.
#[tactic(auto, unfolding(crate::specs::Phred::capped_quality))]
pub fn cap_quality(score: u16, ceiling: Ceiling) -> u8
    ensures { result ≡ capped_quality ceiling.value score }
{
    score
        .min(u16::from(ceiling.value))
        .max(u16::from(MIN_PHRED)) as u8
}
