//! A log that is given by its name.

use blog_device::Watched;
use std::io::Read;

/// A log that is given by its name, and read when its turn comes.
#[derive(Drop)]
pub struct GivenLog<'a, R: Read> {
    /// Its name, as it is shown.
    pub name: &'a str,
    /// What it is read from.
    pub reader: Watched<R>,
}
