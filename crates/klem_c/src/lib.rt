// What a kernel links: every call of include/klem.h, on numbers and slices. There is one function for each call, whatever two of them share: C calls each by its
// name.
#![tactic(auto)]

pub mod blocks;
mod frames;
pub mod headers;
pub mod images;
pub mod lengths;
pub mod levels;
pub mod names;
pub mod paths;
mod reply;
mod slices;
pub mod tables;
