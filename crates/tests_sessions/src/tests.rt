//! Two clients' sessions at once at one node of three, over the parts of which `desk cluster` is made. The second comes
//! over a connection on loopback, as from `desk send`.

mod browsers;
mod carrying;
mod ends;
mod gate;
mod group;
mod joining;
mod known_wire;
mod learning;
mod lines;
mod loopback;
mod mailbox;
mod nodes;
mod opening;
mod reads;
mod settling;
mod talking;
