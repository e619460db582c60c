// Writing an answer.

ghost use Rattle.std.specs.Prelude.{◌≡◌, ◌≤◌, OnOk, OnErr};
ghost use Rattle.kv_io.specs.Outside.{Adds, AddsFront, Rose};

use kv_io::{Failed, Sink};

/// Writes all of the bytes, or a front of them where the output fails.
pub fn write_all<O: Sink>(output: &mut O, bytes: &[u8]) -> Result<(), Failed>
    ensures ok { OnOk result (Adds (O.wrote output.old) bytes.now (O.wrote output.new)) }
    ensures err { OnErr result (AddsFront (O.wrote output.old) bytes.now (O.wrote output.new)) }
    ensures later { O.faults output.old ≤ O.faults output.new }
    ensures cause { OnErr result (Rose (O.faults output.old) (O.faults output.new)) }
{
    let mut at = 0;
    while at < bytes.len() {
        let count = output.write(&bytes[at..])?;
        at += count;
    }
    Ok(())
}
