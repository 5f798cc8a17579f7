// Each public call once, and what no clause says: that calls succeed where there is memory.
mod devices;
mod folder;
mod rigs;
mod streams;
