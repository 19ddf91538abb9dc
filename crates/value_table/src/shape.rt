// The places that a bid raises in a block of two categories.
ghost use Rattle.std.specs.Prelude.{◌≤◌, ◌<◌};

/// The places that a bid raises in a block of two categories: of each row of `width` places the first `run`, from the place
/// of its lots on.
#[derive(Drop)]
pub struct Rows {
    pub count: usize,
    pub width: usize,
    pub run: usize,
    pub ghost some: { (0 < count) × (0 < run) },
    pub ghost inside: { run ≤ width },
}
