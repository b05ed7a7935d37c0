// The version of programs, libraries and headers. The Makefile takes it from this line.
#![tactic(auto)]

pub const VERSION: [u8; 5] = *b"1.4.0";
