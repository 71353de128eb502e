// A strand's depths and errors from bytes, two a number, low byte first, into arrays of a call's own. Uses lists, byte_numbers and
// duplex_metrics.
#![tactic(auto)]

ghost use Rattle.std.specs.Prelude.{◌≡◌};
ghost use Rattle.molecule_counts.specs.Counts.{DecodedTo, arrays_in, buffers_in, zero_counts, counts_at_front};

use duplex_metrics::Counts;
use lists::front;

// Arrays for a strand's numbers, each of the most that is looked at: no heap.
#[derive(Clone, Copy)]
pub struct CountBuffers {
    pub depths: [u16; 1024],
    pub errors: [u16; 1024],
}

impl CountBuffers {
    // As a call begins with them.
    pub fn zeros() -> CountBuffers
        ensures { buffers_in result ≡ zero_counts }
    {
        CountBuffers {
            depths: [0; 1024],
            errors: [0; 1024],
        }
    }

    // Reads the numbers of a strand that may be absent, as many of each array as there is room for.
    pub fn decode(&mut self, s: Option<Counts<u8>>)
        ensures { DecodedTo s.entry (buffers_in self.old) (buffers_in self.new) }
    {
        if let Some(s) = s {
            byte_numbers::read(s.depths, &mut self.depths);
            byte_numbers::read(s.errors, &mut self.errors);
        }
    }

    // The numbers of a strand, which stand at the front.
    pub fn counts(&self, s: Counts<u8>) -> Counts<'_, u16>
        ensures { arrays_in result ≡ counts_at_front s.entry (buffers_in self.now) }
    {
        Counts {
            depths: front(&self.depths, s.depths.len() / 2),
            errors: front(&self.errors, s.errors.len() / 2),
        }
    }
}
