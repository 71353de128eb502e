// What a lab chooses of the combination, which the Rust has as constants: the ceiling of qualities, and how many positions a strand may
// have. Uses refusals and phred.
#![tactic(auto)]

ghost use Rattle.std.specs.Prelude.{◌≡◌};
ghost use Rattle.refusals.specs.Outcome.{answer};
ghost use Rattle.refusals.specs.Refusal.{refused};
ghost use Rattle.settings.specs.Settings.{given_of, usual, limited_to, settings_faults, told_by};

use phred::Ceiling;
use refusals::Refusal;

// The settings as a program gives them, which may be any numbers.
// No limit is wrong: one above MAX_POSITIONS is as MAX_POSITIONS, since row 7 comes before row 19.
#[repr(C)]
#[derive(Clone, Copy)]
pub struct GivenSettings {
    pub ceiling: u8,
    pub limit: u16,
}

// Those that were tested. The limit is one by the strands' lengths, which an entry tests before a record is made: what makes the record
// does not look at it.
#[derive(Clone, Copy)]
pub struct Settings {
    pub ceiling: Ceiling,
    pub limit: u16,
}

impl GivenSettings {
    // Refuses by 14.
    pub fn tested(self) -> Result<Settings, Refusal>
        ensures { told_by result ≡ answer (refused (settings_faults self)) self }
    {
        Ok(Settings {
            ceiling: Ceiling::new(self.ceiling)?,
            limit: self.limit,
        })
    }

    // The same with no more than so many positions.
    pub fn limited_to(self, positions: u16) -> GivenSettings
        ensures { result ≡ limited_to positions self }
    {
        GivenSettings {
            limit: self.limit.min(positions),
            ..self
        }
    }
}

impl Settings {
    // Those of the Rust.
    pub fn usual() -> Self
        ensures { given_of result ≡ usual }
    {
        Settings {
            ceiling: Ceiling::highest(),
            limit: 1024,
        }
    }
}
