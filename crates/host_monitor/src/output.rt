ghost use Rattle.std.specs.Prelude.{◌≡◌, OnOk, IsErrOf};
ghost use Rattle.bas_edge.specs.Faults.{HasCause};
ghost use Rattle.abi_calls.specs.Failing.{IsPartWritten, with_text};

use bas_edge::{EdgeError, Sink};

#[tactic(auto, using(crate::proofs::Pieces::giving))]
/// Gives all the bytes to the sink. After an `Err` it has a front of them.
pub(crate) fn give_all<S: Sink>(sink: &mut S, bytes: &[u8]) -> Result<(), EdgeError>
    ensures all { OnOk result (S.given sink.new ≡ with_text (S.given sink.old) bytes.now) }
    ensures part { IsPartWritten
        (S.given sink.old) (S.given sink.new) (with_text (S.given sink.old) bytes.now) }
    ensures cause { HasCause EdgeError.Failed
        (S.fault_count sink.old) (S.fault_count sink.new) result }
    ensures unfaulted { OnOk result (S.fault_count sink.new ≡ S.fault_count sink.old) }
    ensures want { IsErrOf result EdgeError.Memory
        → S.fault_count sink.new ≡ S.fault_count sink.old }
{
    let mut rest = bytes;
    while !rest.is_empty() {
        let given = sink.give(rest)?;
        let (_, behind) = rest.split_at(given);
        rest = behind;
    }
    Ok(())
}
