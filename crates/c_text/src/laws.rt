//! Laws of texts and of reading them. Each function is its clause, and does nothing when it runs.
ghost use Rattle.c_text.specs.Laws.{CodesAreOne, PlacesAreOne};

/// A text is refused at no two places.
#[tactic(auto, using(crate::proofs::PlaceLemmas::places_are_one))]
pub fn places_are_one()
    ensures { PlacesAreOne }
{}

/// No two well-formed codes have one text.
pub fn codes_are_one()
    ensures { CodesAreOne }
{}
