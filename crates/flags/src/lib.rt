// The FLAG bits of the SAM specification that a caller tests or writes (fgumi_raw_bam::flags). Uses nothing.
#![tactic(auto)]

ghost use Rattle.std.specs.Prelude.{◌≡◌};
ghost use Rattle.flags.specs.Flags.{is_set};

pub const PAIRED: u16 = 0x1;

pub const UNMAPPED: u16 = 0x4;

pub const MATE_UNMAPPED: u16 = 0x8;

pub const REVERSE: u16 = 0x10;

pub const FIRST_SEGMENT: u16 = 0x40;

pub const LAST_SEGMENT: u16 = 0x80;

// Whether a bit is set. No bit, 0, is never set.
pub fn is_set(flags: u16, bit: u16) -> bool
    ensures { result ≡ is_set flags bit }
{
    // Not `flags & bit != 0`: a bit that is no power of two is taken too, and of such the two differ, as of 1 and 3.
    if bit == 0 {
        return false;
    }
    flags / bit % 2 == 1
}
