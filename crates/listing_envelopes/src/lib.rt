// Envelopes in a line, and the lines of the Player's calls and of rendering. A library of the tool
// `vectors`: its functions are proved safe and ending, and state no result.
#![tactic(auto)]

pub mod calls_player;
pub mod calls_render;
pub mod records;
