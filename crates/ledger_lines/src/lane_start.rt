//! A lane, where a file begins.

ghost use Rattle.std.specs.Prelude.{◌<◌, ◌^◌};

/// A lane, as the line that begins a file names it.
#[derive(Clone, Copy, Debug, PartialEq, Eq)]
pub struct LaneStart<'a> {
    /// Its number.
    pub lane: u16,
    /// The home server's name in the configuration.
    pub home: &'a str,
    /// The serial of the lane's next response, below 2^63.
    pub serial: u64,
    ghost bounded: { serial < 2 ^ 63 },
}
