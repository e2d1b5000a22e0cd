// A line that is short enough to be read, and what it takes to read it.
ghost use Rattle.std.specs.Prelude.{◌≡◌, ◌≤◌, length};

use crate::shape::Allowed;
use std::alloc::Global;

#[derive(Drop)]
pub struct Line<'a> {
    // the memory for what the line says
    pub heap: Global,
    pub bytes: &'a [u8],
    pub allowed: Allowed,
    ghost short: { length bytes.now ≤ 1024 },
}

impl Line<'_> {
    // The place of the line's end.
    pub fn end(&self) -> u16
        ensures { result ≡ length self.now.bytes.now }
    {
        self.bytes.len() as u16
    }
}
