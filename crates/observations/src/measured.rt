// What a raw number of an observation measures.
ghost use Rattle.std.specs.Prelude.{◌≡◌};
ghost use Rattle.observations.specs.Measured.{pseudorange_of, phase_of, lock_of};

// Absent, a plain count, or a length in metres: the three cases that rule OB5 names, so it is no Option of two.
#[derive(Clone, Copy)]
pub enum Measured {
    Absent,
    Count(u32),
    Metres(f64),
}

// DF011, the L1 pseudorange, in 0.02 m.
pub fn pseudorange(raw: u32) -> Measured
    ensures { result ≡ pseudorange_of raw }
{
    if raw == 0xFF_FFFF {
        return Measured::Absent;
    }
    Measured::Metres((raw as f64) * 0.02)
}

// DF012, the L1 phase range less the pseudorange, in 0.0005 m.
pub fn phase(raw: i32) -> Measured
    ensures { result ≡ phase_of raw }
{
    if raw == -0x8_0000 {
        return Measured::Absent;
    }
    Measured::Metres((raw as f64) * 0.0005)
}

// DF013, the L1 lock time indicator.
pub fn lock(raw: u32) -> Measured
    ensures { result ≡ lock_of raw }
{
    Measured::Count(raw)
}
