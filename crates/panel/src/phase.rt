// What the steps of a phase go by.
ghost use Rattle.std.specs.Prelude.{◌≤◌};

use exchanges::fitting::Size;

// A phase that may run, by its number, and the panel's size.
#[derive(Clone, Copy)]
pub(crate) struct Phase {
    pub(crate) size: Size,
    pub(crate) number: u8,
    ghost first: { 1 ≤ number },
    ghost last: { number ≤ 8 },
}
