//! The draws that say how the calls of a sample are. The functions meet `specs/Draws.antt`.
ghost use Rattle.std.specs.Prelude.{◌≡◌};
ghost use Rattle.sample_maker.specs.Draws as spec;

/// The call at a stop.
#[derive(Drop)]
pub(crate) enum DrawnCall {
    /// The stop isn't served.
    Cancelled,
    /// There is no call.
    Unsaid,
    /// It is expected, with the delay of the trip.
    Expected,
}

/// The draws so far: what the generator holds, and the delay of the trip in seconds.
#[derive(Drop)]
pub(crate) struct Draws {
    pub(crate) held: u32,
    pub(crate) delay: i16,
}

impl Draws {
    // Makes a draw.
    fn draw(&mut self) -> u32
        ensures number { result ≡ spec.number_of (spec.drawn self.old.held) }
        ensures after { self.new ≡ record self.old { held = spec.drawn self.old.held } }
    {
        let next = u64::from(self.held) * 1_103_515_245 + 12_345;
        self.held = (next % 2_147_483_648) as u32;
        self.held / 65_536
    }

    /// Makes the draws for the next stop of the trip: the call there.
    pub(crate) fn next_call(&mut self) -> DrawnCall
        ensures call { result ≡ spec.call_of self.old }
        ensures after { self.new ≡ spec.after_stop self.old }
    {
        match self.draw() % 16 {
            0 => DrawnCall::Cancelled,
            1 => DrawnCall::Unsaid,
            2..=5 => {
                self.delay = (self.draw() % 601) as i16 - 60;
                DrawnCall::Expected
            }
            _ => DrawnCall::Expected,
        }
    }
}
