// Reading a command from the bytes of a script. The letters and operands are in docs/RULES.md.
ghost use Rattle.std.specs.Prelude.{◌≡◌, ◌≤◌, ◌<◌, length, MatchResult};
ghost use Rattle.scripts.specs.Commands.{head, request_head};
ghost use Rattle.scripts.specs.Reading.{ByteRead, BytesRead, Fewer, CommandRead};

use crate::command::Command;
use crate::fault::ScriptFault;
use groups::Ending;
use store::Edit;

// Reads a byte; none is left at the end of the script.
fn byte(script: &[u8], place: &mut usize) -> Result<u8, ScriptFault>
    requires { place.old ≤ length script.now }
    ensures read { ByteRead script.now place.old place.new result }
{
    let value = *script.get(*place).ok_or(ScriptFault::CutOff)?;
    *place += 1;
    Ok(value)
}

// Reads so many bytes; there may be fewer at the end of the script.
fn bytes<'s>(script: &'s [u8], place: &mut usize, count: usize) -> Result<&'s [u8], ScriptFault>
    requires { place.old ≤ length script.now }
    ensures read { MatchResult result (λ bs. BytesRead script.now place.old place.new count bs.now) (Fewer script.now place.old count) }
{
    let rest = &script[*place..];
    let read = rest.get(..count).ok_or(ScriptFault::CutOff)?;
    *place += count;
    Ok(read)
}

// Reads a request, after its letter: the job, the need, the number of targets, and these.
fn request<'s>(script: &'s [u8], place: &mut usize) -> Result<Command<'s>, ScriptFault>
    requires { place.old ≤ length script.now }
    ensures { CommandRead request_head 1 script.now place.old place.new result }
{
    let job = byte(script, place)? as usize;
    let need = byte(script, place)?;
    let count = byte(script, place)? as usize;
    let targets = bytes(script, place, count)?;
    Ok(Command::Edit(Edit::Request { job, need, targets }))
}

/// Reads a command whole.
pub fn command<'s>(script: &'s [u8], place: &mut usize) -> Result<Command<'s>, ScriptFault>
    requires { place.old < length script.now }
    ensures { CommandRead head 0 script.now place.old place.new result }
{
    match byte(script, place)? as char {
        'R' => request(script, place),
        'G' => {
            let granter = byte(script, place)? as usize;
            let waiter = byte(script, place)? as usize;
            Ok(Command::Edit(Edit::Grant { granter, waiter }))
        }
        'O' => Ok(Command::Open),
        'K' => Ok(Command::End(Ending::Keep)),
        'C' => Ok(Command::End(Ending::Cancel)),
        'D' => Ok(Command::Detect {
            job: byte(script, place)?,
        }),
        _ => Err(ScriptFault::UnknownLetter),
    }
}
