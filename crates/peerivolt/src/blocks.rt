// Settings blocks.
ghost use Rattle.std.specs.Prelude.{◌≡◌, [], ◌∷◌};
ghost use Rattle.settings.specs.Read.{read_settings};
ghost use Rattle.settings.specs.Write.{write_settings};
ghost use Rattle.peerivolt.specs.Extra.{returned, answered};
ghost use Rattle.peerivolt.specs.Fields.{end_values};
ghost use Rattle.peerivolt.specs.Settings.{found_values, reads_settings};

use crate::extra;
use crate::extra::Values;
use settings::read::Settings;
use settings::{read, write};

// Reads the settings block of this index, for a reader of edition 1 or 2, into lists of 64 places each. Extra: how many
// numbers, and the block's edition.
#[tactic(auto, using(crate::proofs::SettingsLaws::reading_settings))]
#[unsafe(no_mangle)]
pub extern "C" fn pv_settings_read(
    block: &[u8],
    reader: u32,
    index: u32,
    numbers: &mut [u16],
    priorities: &mut [u8],
    extra: &mut [u64],
) -> u32
    ensures { returned result extra.new (numbers.new, priorities.new) ≡ reads_settings numbers.old priorities.old (read_settings block.now reader index numbers.old priorities.old) extra.old }
{
    if extra.len() != 8 {
        return 9;
    }
    if numbers.len() != 64 {
        return 9;
    }
    if priorities.len() != 64 {
        return 9;
    }
    extra::tell(read::read(block, reader, index, numbers, priorities), extra)
}

// Writes the numbers, and in edition 2 their priorities, as the settings block of this index. Extra: its 512 bytes.
#[unsafe(no_mangle)]
pub extern "C" fn pv_settings_write(
    edition: u32,
    index: u32,
    numbers: &[u16],
    priorities: &[u8],
    out: &mut [u8],
    extra: &mut [u64],
) -> u32
    ensures { returned result extra.new out.new ≡ answered end_values extra.old out.old (write_settings edition index numbers.now priorities.now out.old) }
{
    if extra.len() != 8 {
        return 9;
    }
    let written = write::write(edition, index, numbers, priorities, out);
    extra::tell(written.and(Ok(512)), extra)
}

// How many numbers were read, and the block's edition.
impl Values for Settings {
    ghost listed = { λ s. s.count ∷ s.edition ∷ [] };

    #[inline(always)]
    fn values(self) -> [u64; 8] {
        [self.count as u64, self.edition as u64, 0, 0, 0, 0, 0, 0]
    }
}
