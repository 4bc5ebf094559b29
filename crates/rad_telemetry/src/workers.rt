//! The names of the workers of a configuration.

ghost use Rattle.std.specs.Prelude.{◌≡◌};
ghost use Rattle.rad_telemetry.specs.Workers.{worker_text};

use rad_realms::Config;

/// Returns the name of the worker in this row: `front`, or for a lane the name of its home server, or `none` if the
/// configuration has no such lane.
pub fn worker_name(config: &Config, row: usize) -> &str
    ensures { result.now ≡ worker_text config.now row }
{
    if row == 0 {
        return "front";
    }
    match config.homes().get(row - 1) {
        Some(home) => home.name(),
        None => "none",
    }
}
