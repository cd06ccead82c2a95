// What a note's numbers come to, as pure functions by value: bend curves, slide marks, dynamics and keys.
#![tactic(auto)]

pub mod held; // numbers held to their ranges
pub mod bend; // the bend curve and its height
pub mod slide; // slides and slide marks
pub mod level; // the dynamic of a chord and the running dynamic
pub mod key; // keys of notes and of graces
