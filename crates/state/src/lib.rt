// The stored state of an envelope: 1,028 words. docs/STATE.md has the layout.
#![tactic(auto)]

pub mod read;
pub mod write;

// The words of the settings, those of a point, and all of a state's.
const SETTINGS: usize = 4;

const POINT: usize = 4;

pub const STATE_WORDS: usize = SETTINGS + 256 * POINT;
