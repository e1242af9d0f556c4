//! Worked runs of the top call, as tables by theme.

mod crashes;
mod day;
mod demos;
mod failing;
mod faults;
mod firing;
mod limits;
mod lines;
mod pieces;
mod runs;
mod scripts;
mod snaps;
mod stores;
mod texts;
mod trips;
mod words;
