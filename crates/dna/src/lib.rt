// Bases as bytes: the letters and their case (fgumi_dna). Uses nothing.
#![tactic(auto)]

ghost use Rattle.std.specs.Prelude.{◌≡◌};
ghost use Rattle.dna.specs.Dna.{upper, same_letter};

// No call.
pub const NO_CALL_BASE: u8 = b'N';

pub const NO_CALL_BASE_LOWER: u8 = b'n';

// A letter a to z as its capital; any other byte as it is. The Rust's name for what std does.
#[tactic(auto, unfolding(crate::specs::Dna::upper))]
pub fn to_ascii_uppercase(base: u8) -> u8
    ensures { result ≡ upper base }
{
    base.to_ascii_uppercase()
}

// Whether two bytes are the same letter, or the same byte. std's function of the name compares small letters, the definition capitals: a
// law that the two agree would be longer than this body.
#[tactic(auto, unfolding(crate::specs::Dna::same_letter))]
pub fn eq_ignore_ascii_case(a: u8, b: u8) -> bool
    ensures { result ≡ same_letter a b }
{
    to_ascii_uppercase(a) == to_ascii_uppercase(b)
}
