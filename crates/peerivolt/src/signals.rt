// The signal tables and their order.
ghost use Rattle.std.specs.Prelude.{◌≡◌};
ghost use Rattle.bits.specs.Told.{Accepted};
ghost use Rattle.messages.specs.Signals.{sig, table_of, signal_of, number_of};
ghost use Rattle.messages.specs.SignalOrder.{order};
ghost use Rattle.messages.specs.Answers.{found_signal, found_number, told_order};
ghost use Rattle.peerivolt.specs.Extra.{returned, reads};
ghost use Rattle.peerivolt.specs.Signals.{signal_values, number_values, order_values};

use crate::extra;
use crate::extra::Values;
use messages::signals;
use messages::signals::Signal;
use std::cmp::Ordering;

// The signal that a number stands for in a system's table. Extra: 1, band and letter, or 0.
#[unsafe(no_mangle)]
pub extern "C" fn pv_signal_of(system: u32, number: u32, extra: &mut [u64]) -> u32
    ensures { returned result extra.new tt ≡ reads signal_values (Accepted (signal_of (table_of system) number)) extra.old }
{
    if extra.len() != 8 {
        return 9;
    }
    extra::tell(Ok(signals::signal_of(system, number)), extra)
}

// The number of a signal in a system's table. Extra: 1 and the number, or 0.
#[unsafe(no_mangle)]
pub extern "C" fn pv_number_of(system: u32, band: u32, letter: u32, extra: &mut [u64]) -> u32
    ensures { returned result extra.new tt ≡ reads number_values (Accepted (number_of (table_of system) (sig band letter))) extra.old }
{
    if extra.len() != 8 {
        return 9;
    }
    extra::tell(Ok(signals::number_of(system, band, letter)), extra)
}

// How the first signal stands to the second in a system's order. Extra: -1, 0 or 1.
#[unsafe(no_mangle)]
pub extern "C" fn pv_signal_order(
    system: u32,
    band1: u32,
    letter1: u32,
    band2: u32,
    letter2: u32,
    extra: &mut [u64],
) -> u32
    ensures { returned result extra.new tt ≡ reads order_values (Accepted (order (table_of system) (sig band1 letter1) (sig band2 letter2))) extra.old }
{
    if extra.len() != 8 {
        return 9;
    }
    extra::tell(
        Ok(signals::compare(system, band1, letter1, band2, letter2)),
        extra,
    )
}

// 1, and the band and the letter of a signal; or 0.
impl Values for Option<Signal> {
    ghost listed = { λ s. signal_values (found_signal s) };

    #[inline(always)]
    fn values(self) -> [u64; 8] {
        match self {
            Some(Signal { band, letter }) => [1, band as u64, letter as u64, 0, 0, 0, 0, 0],
            None => [0; 8],
        }
    }
}

// 1, and a number; or 0.
impl Values for Option<u8> {
    ghost listed = { λ n. number_values (found_number n) };

    #[inline(always)]
    fn values(self) -> [u64; 8] {
        match self {
            Some(number) => [1, number as u64, 0, 0, 0, 0, 0, 0],
            None => [0; 8],
        }
    }
}

// -1, 0 or 1, in 64 bits of two's complement.
impl Values for Ordering {
    ghost listed = { λ o. order_values (told_order o) };

    #[inline(always)]
    fn values(self) -> [u64; 8] {
        let order = match self {
            Ordering::Less => u64::MAX,
            Ordering::Equal => 0,
            Ordering::Greater => 1,
        };
        [order, 0, 0, 0, 0, 0, 0, 0]
    }
}
