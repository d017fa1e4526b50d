//! Places in a text, found on one way from its beginning to its end.

ghost use Rattle.std.specs.Prelude.{◌≡◌, ◌^◌, ◌<◌, ◌≤◌, List, ℕ, length};
ghost use Rattle.sv_lex.specs.Collecting.{IsSpot};

use sv_text::Place;

/// An offset in a text, and its place.
#[derive(Clone, Copy)]
pub struct Spot {
    pub at: usize,
    pub place: Place,
}

impl Spot {
    /// The beginning of a text.
    pub fn start() -> Spot
        ensures at { result.at ≡ 0 }
        ensures place { (text : List ℕ) → IsSpot text result }
    {
        Spot {
            at: 0,
            place: Place { line: 1, col: 1 },
        }
    }

    /// Goes on to a later offset of the text.
    pub fn go_to(self, text: &[u8], to: usize) -> Spot
        requires ahead { self.at ≤ to }
        requires within { to ≤ length text.now }
        requires short { length text.now < 2 ^ 31 }
        requires spot { IsSpot text.now self }
        ensures at { result.at ≡ to }
        ensures spot { IsSpot text.now result }
    {
        let mut place = self.place;
        for byte in &text[self.at..to] {
            if *byte == b'\n' {
                place.line += 1;
                place.col = 1;
            } else {
                place.col += 1;
            }
        }
        Spot { at: to, place }
    }
}
