//! What callers write first over an atlas. All of it is proved without a proof file, except `apart::two`,
//! `beside::place_beside`, `rehearsed`, `tiled` and `reserving`, which show how a clause, a law and a loop's invariant are cited.
#![tactic(auto)]

mod apart;
mod asked;
mod back;
mod beside;
mod blanks;
mod boxes;
mod cards;
mod first;
mod frames;
mod glyphs;
mod icons;
mod keep;
mod last_frame;
mod layers;
mod lists;
mod moves;
mod numbered;
mod pages;
mod plain;
mod recording;
mod rehearsed;
mod reserved;
mod reserving;
mod saved;
mod sheet;
mod shown;
mod strips;
mod textures;
mod themes;
mod tiled;
mod total;
mod walked;
