//! Images over files: how often they read and write the file, which buffer they give up, and what they keep where a
//! write fails. `counting_file` is such a file.

pub mod counting_file;
mod file_image;
