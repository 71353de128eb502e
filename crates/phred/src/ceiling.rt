// The highest quality that a lab takes. A file of its own: what a ghost field's file imports may not lead back to the struct.

ghost use Rattle.std.specs.Prelude.{◌≤◌};

// One outside 3 to 93 cannot be made.
#[derive(Clone, Copy)]
pub struct Ceiling {
    pub value: u8,
    ghost within: { (3 ≤ value) × (value ≤ 93) },
}
