// What is searched for. C gives it as a number, in a scanner and to a listing; from there on it is one of these two.
ghost use Rattle.std.specs.Prelude.{◌≡◌};
ghost use Rattle.frames.specs.Modes.{framing_of};
ghost use Rattle.frames.specs.Steps.{number_of};

// RTCM only, or RTCM and UBX.
#[derive(Clone, Copy, Debug, PartialEq, Eq)]
pub(crate) enum Mode {
    Rtcm,
    Both,
}

impl Mode {
    // What a number of C is: 0 is RTCM only, and each other both.
    pub(crate) fn of(mode: u32) -> Mode
        ensures { framing_of (number_of result) ≡ framing_of mode }
    {
        match mode {
            0 => Mode::Rtcm,
            _ => Mode::Both,
        }
    }
}
