// A small assembler: the bytes of a script are written from its commands.
use arrayvec::ArrayVec;
use std::process::Abort;

/// A command of a script, and bytes that are none or only the beginning of one.
#[derive(Clone, Copy, Drop, Debug)]
pub enum Command<'s> {
    /// A job, its need, and its targets.
    Request(u8, u8, &'s [u8]),
    /// A granter and a waiter.
    Grant(u8, u8),
    Open,
    Keep,
    Cancel,
    /// The initiator.
    Detect(u8),
    Bytes(&'s [u8]),
}

/// Commands that a table of cases holds.
pub type Commands = &'static [Command<'static>];

/// The bytes of a script.
pub type Script = ArrayVec<u8, 128>;

// Writes these bytes behind those that are there.
fn write(rt: &impl Abort, script: &mut Script, bytes: &[u8]) {
    assert!(rt; script.try_extend_from_slice(bytes).is_ok());
}

/// Writes these commands behind those that are there.
pub fn append(rt: &impl Abort, script: &mut Script, commands: &[Command]) {
    for command in commands {
        match *command {
            Command::Request(job, need, targets) => {
                assert!(rt; targets.len() < 256);
                write(rt, script, &[b'R', job, need, targets.len() as u8]);
                write(rt, script, targets);
            }
            Command::Grant(granter, waiter) => write(rt, script, &[b'G', granter, waiter]),
            Command::Open => write(rt, script, b"O"),
            Command::Keep => write(rt, script, b"K"),
            Command::Cancel => write(rt, script, b"C"),
            Command::Detect(job) => write(rt, script, &[b'D', job]),
            Command::Bytes(bytes) => write(rt, script, bytes),
        }
    }
}

/// The bytes of these commands, one behind the other.
pub fn assembled(rt: &impl Abort, commands: &[Command]) -> Script {
    let mut script = Script::new();
    append(rt, &mut script, commands);
    script
}
