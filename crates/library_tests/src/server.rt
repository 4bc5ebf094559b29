//! What no run of the program comes to in `rad_server` and `rad_addresses`: workers that end or that are held, a
//! notification that interrupts a read, and lists of addresses that no machine has.

mod ending;
mod gates;
mod interrupting;
mod threads;
