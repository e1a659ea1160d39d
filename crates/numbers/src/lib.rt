// The numbers that everything else borrows, where std has no function for them, or a slower one: conversions, the total
// order, max and min. Of what std has (`is_finite`, `round`, `sqrt`, bit patterns) only the definitions stand here.
// Each public function is total, and equals a definition over whole numbers: of `specs/`, or of the kit's IEEE 754 library.
#![tactic(auto)]

pub mod convert;
pub mod order;
