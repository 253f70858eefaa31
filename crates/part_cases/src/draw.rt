// What is drawn by a seed.

/// Numbers that a seed draws, one after the other.
#[derive(Clone, Copy)]
pub struct Draw {
    state: u64,
}

impl Draw {
    /// The first number is still to be drawn.
    pub fn new(seed: u64) -> Draw {
        Draw { state: seed }
    }

    /// The next number, below the one that is given.
    pub fn pick(&mut self, below: u64) -> u64 {
        let number = mixed(self.state);
        self.state = self.state.wrapping_add(STEP);
        number % below.max(1)
    }
}

/// Numbers that are drawn by a seed, for one of two views: at most places both views have the same number.
#[derive(Clone, Copy)]
pub struct ViewDraw {
    seed: u64,
    view: u64,
}

impl ViewDraw {
    /// The numbers of a seed for the view with a number.
    pub fn new(seed: u64, view: u64) -> ViewDraw {
        ViewDraw { seed, view }
    }

    /// The number of a place, below the one that is given.
    pub fn pick(&self, round: u8, place: u8, below: u64) -> u64 {
        let place = u64::from(round) << 8 | u64::from(place);
        let alike = mixed(self.seed ^ mixed(place));
        if mixed(alike) % 4 == 0 {
            mixed(alike ^ self.view) % below.max(1)
        } else {
            mixed(alike ^ 7) % below.max(1)
        }
    }

    /// The number of a place, below the one that is given, which both views have.
    pub fn shared(&self, round: u8, place: u8, below: u64) -> u64 {
        let place = u64::from(round) << 8 | u64::from(place);
        mixed(mixed(self.seed ^ mixed(place)) ^ 7) % below.max(1)
    }

    /// Whether what has this place is there: mostly it is.
    pub fn has(&self, round: u8, place: u8) -> bool {
        self.pick(round, place, 6) != 0
    }
}

/// How far a state goes on with each number that is drawn.
const STEP: u64 = 0x9e37_79b9_7f4a_7c15;

/// A number from which others follow that look drawn by lot (splitmix64).
fn mixed(number: u64) -> u64 {
    let number = number.wrapping_add(STEP);
    let number = (number ^ number >> 30).wrapping_mul(0xbf58_476d_1ce4_e5b9);
    let number = (number ^ number >> 27).wrapping_mul(0x94d0_49bb_1331_11eb);
    number ^ number >> 31
}
