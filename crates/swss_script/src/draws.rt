// The numbers by which a script is made.
ghost use Rattle.std.specs.Prelude.{◌≡◌, ◌<◌, ◌^◌};
ghost use Rattle.swss_script.specs.Generated.{drawn, next_state};

/// Numbers that follow from a seed, one after the other.
#[derive(Clone, Copy, Debug)]
pub struct Draws {
    state: u64,
}

impl Draws {
    /// The numbers of a seed.
    pub fn new(seed: u64) -> Draws
        ensures { result.state ≡ seed }
    {
        Draws { state: seed }
    }

    /// The next number.
    pub fn draw(&mut self) -> u64
        ensures state { self.new.state ≡ next_state self.old.state }
        ensures number { result ≡ drawn self.new.state }
        ensures small { result < 2 ^ 31 }
    {
        let next = u128::from(self.state) * 6_364_136_223_846_793_005 + 1_442_695_040_888_963_407;
        self.state = (next % (1 << 64)) as u64;
        self.state >> 33
    }
}
