// Whole numbers in decimal, written and read. Nothing here knows of meshes.
#![tactic(auto)]

pub mod reading;
pub mod writing;
