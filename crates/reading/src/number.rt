// A frame that is handed out, and its message number, taken from its own bytes with no check.
ghost use Rattle.std.specs.Prelude.{◌≡◌};
ghost use Rattle.frames.specs.Answers.{told_number};
ghost use Rattle.reading.specs.Number.{frame_in, number_in};

use frames::frame;

// The frame of so many bytes at the front of the area.
pub fn frame_of(area: &[u8], length: usize) -> &[u8]
    ensures { result.now ≡ frame_in area.now length }
{
    area.get(..length).unwrap_or(&[])
}

// The message number of a frame; none if its data are fewer than two bytes.
pub fn number_of(frame: &[u8]) -> Option<u16>
    ensures { told_number result ≡ number_in frame.now }
{
    frame::number_of(frame::data_of(frame))
}
