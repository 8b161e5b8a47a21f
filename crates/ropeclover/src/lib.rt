// The C interface of the library: `./build ropeclover` makes an archive of it. Its manual is include/ropeclover.h.
#![tactic(auto)]

pub mod exports;
