// The signals of message 1059, by edition.
ghost use Rattle.std.specs.Prelude.{◌≡◌};
ghost use Rattle.messages.specs.Signals.{sig};
ghost use Rattle.messages.specs.Signals1059.{named_signal1059, named_number1059};
ghost use Rattle.peerivolt.specs.Extra.{returned, reads};
ghost use Rattle.peerivolt.specs.Signals.{signal_values, number_values};

use crate::extra;
use messages::signals1059;

// The signal that a number stands for in an edition. Extra: 1, band and letter, or 0.
#[unsafe(no_mangle)]
pub extern "C" fn pv_1059_signal_of(edition: u32, number: u32, extra: &mut [u64]) -> u32
    ensures { returned result extra.new tt ≡ reads signal_values (named_signal1059 edition number) extra.old }
{
    if extra.len() != 8 {
        return 9;
    }
    extra::tell(signals1059::signal_of_1059(edition, number), extra)
}

// The number of a signal in an edition. Extra: 1 and the number, or 0.
#[unsafe(no_mangle)]
pub extern "C" fn pv_1059_number_of(edition: u32, band: u32, letter: u32, extra: &mut [u64]) -> u32
    ensures { returned result extra.new tt ≡ reads number_values (named_number1059 edition (sig band letter)) extra.old }
{
    if extra.len() != 8 {
        return 9;
    }
    extra::tell(signals1059::number_of_1059(edition, band, letter), extra)
}
