// One recording: its pieces are fed, and then what is held is closed.
ghost use Rattle.std.specs.Prelude.{◌≡◌, false, IfOk};
ghost use Rattle.reading.specs.Account.{Right, AllTaken};

use crate::list::{List, Log, Why};
use closing::reason;
use printing::Sink;
use reading::{Before, Failure, Mode, Program, Recording, Source};

// Salvages an open recording. If only the closing frames are `salvaged`, those that feeding finds are not written.
pub fn run(
    program: &Program,
    source: Source,
    name: &[u8],
    log: Log,
    salvaged: bool,
) -> Result<(), Failure> {
    let mut list = List::new(log, name);
    let mut recording = Recording::new(source, name, program.terminal(), Mode::Rtcm);
    let end = feed(program, &mut recording, &mut list, salvaged);
    if let Err(Failure::Unwritten) = end {
        return end;
    }
    recording.say_if_empty();
    let fed = recording.account();
    close(program, &mut recording, &mut list)?;
    list.end(fed, recording.account())?;
    end
}

// Feeds the recording to its end. The account is right, all is taken then, and the recording is as whole as it was.
fn feed(
    program: &Program,
    recording: &mut Recording,
    list: &mut List,
    salvaged: bool,
) -> Result<(), Failure>
    ensures right { Right recording.new.account }
    ensures taken { IfOk result (λ u. AllTaken recording.new.account) }
    ensures whole { recording.new.whole ≡ recording.old.whole }
{
    let mut before = recording.before();
    for _ in 0..u64::MAX {
        recording.note(&mut before);
        let found = recording.take()?;
        list_skipped(list, recording, &before);
        match found {
            Some(_) => {
                if !salvaged {
                    write(program, recording.frame())?;
                }
            }
            None => {
                if !is_read_on(recording)? {
                    return Ok(());
                }
            }
        }
    }
    Err(Failure::Unread)
}

// Reads the next piece, once all of the one before is taken, and answers whether there is one.
fn is_read_on(recording: &mut Recording) -> Result<bool, Failure>
    requires { AllTaken recording.old.account }
    ensures taken { IfOk result (λ is_piece. is_piece ≡ false → AllTaken recording.new.account) }
    ensures whole { recording.new.whole ≡ recording.old.whole }
{
    Ok(recording.refill()?.is_some())
}

// Closes the recording: hands out what is held, until nothing is. The account is right.
fn close(program: &Program, recording: &mut Recording, list: &mut List) -> Result<(), Failure>
    ensures right { Right recording.new.account }
    ensures closed { IfOk result (λ u. recording.new.account.held ≡ 0) }
{
    let mut before = recording.before();
    for _ in 0..1030u32 {
        recording.note(&mut before);
        let found = recording.close()?;
        list_given_up(list, recording, &before);
        if found.is_none() {
            return Ok(());
        }
        write(program, recording.frame())?;
    }
    Err(Failure::Unread)
}

fn write(program: &Program, frame: &[u8]) -> Result<(), Failure> {
    program.terminal().put(frame)?;
    Ok(())
}

// Lists what a feeding call skipped. The bytes lie in two areas.
fn list_skipped(list: &mut List, recording: &Recording, before: &Before) {
    let n = recording.skipped_since(before) as usize;
    let (held, piece) = recording.bytes_since(before, n);
    let place = before.place();
    list_bytes(list, held, place);
    list_bytes(list, piece, place.wrapping_add(held.len() as u64));
}

// Lists bytes that were skipped, the first of which stands at the place.
fn list_bytes(list: &mut List, bytes: &[u8], place: u64) {
    for (i, byte) in (0u64..).zip(bytes) {
        let skip = reason::skipped(*byte);
        list.add(place.wrapping_add(i), Why::from(skip));
    }
}

// Lists what a closing call gave up: the first bytes of those held before it. The reasons come by another call than above: as
// a closure it would be no line less.
fn list_given_up(list: &mut List, recording: &Recording, before: &Before) {
    for i in 0..recording.skipped_since(before) {
        let why = reason::at(before.held(), i as usize).map_or(Why::NotD3, Why::from);
        list.add(before.place().wrapping_add(i), why);
    }
}
