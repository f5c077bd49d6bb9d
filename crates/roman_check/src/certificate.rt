//! Checks certificates.
ghost use Rattle.std.specs.Prelude.{◌≡◌, ◌≢◌, ◌+◌, ◌<◌, [], length, Err, IfOk, IsErrOf};
ghost use Rattle.roman_io.specs.Faults.{Rose};
ghost use Rattle.roman_io.specs.Source.{IsAtEnd, GaveAtMost};
ghost use Rattle.roman_model.specs.Certificate.{TooLong};
ghost use Rattle.roman_check.specs.Verdicts.{verdict_of};
ghost use Rattle.roman_check.specs.Audits.{Fits};
ghost use Rattle.roman_check.specs.Readers.{IsReading};
ghost use Rattle.roman_check.specs.Checks.{HaveVerdict, NoneAtFault, SaysGreatest, Comes};

use crate::error::CheckError;
use crate::reader::Reader;
use crate::verdict::Verdict;
use roman_io::{Source, Steps};
use roman_model::{MAX_CERTIFICATE_BYTES, PIECE_BYTES};
use roman_rules::Rules;
use std::alloc::Global;
use std::sync::ledger::Ledger;

/// Reads a certificate to its end, to the first line at fault, or past the limit.
fn read<J: Rules, S: Source, L: Ledger>(
    reader: &mut Reader,
    joint: &J,
    start: u32,
    source: &mut S,
    steps: &mut Steps<L>,
) -> Result<Verdict, CheckError>
    requires start { start < length (J.arena joint.now).nodes }
    requires shaped { Fits J.Rules joint.now reader.old.audit }
    requires lines { reader.old.lines ≡ 0 }
    requires reading { IsReading (J.arena joint.now) [] reader.old }
    ensures comes { Comes (J.arena joint.now) start (S.rest source.old) (S.rest source.new) (S.faults source.old)
        (S.faults source.new) result }
    ensures taken { GaveAtMost (MAX_CERTIFICATE_BYTES + PIECE_BYTES) (S.rest source.old) (S.rest source.new) }
    ensures whole { IfOk result (λ verdict. SaysGreatest verdict → IsAtEnd (S.rest source.new)) }
    ensures borrowed { S.borrowed source.new ≡ S.borrowed source.old }
    ensures texts { S.texts source.new ≡ S.texts source.old }
{
    let mut piece = [0u8; PIECE_BYTES];
    let mut room = MAX_CERTIFICATE_BYTES as usize;
    'takes: loop {
        let count = source.take(&mut piece)?;
        if count == 0 {
            return Ok(reader.finish(joint, start, steps));
        }
        let due = count.min(room);
        if let Some(why) = reader.feed(joint, &piece[..due], steps) {
            let line = reader.lines + 1;
            return Ok(Verdict::Rejected { line, why });
        }
        if due < count {
            return Err(CheckError::TooLong);
        }
        room -= count;
    }
}

/// Checks a certificate against a system. `start` is the number of the start pair. The verdict
/// states whether the text is the certificate of a complete removal list. If it is, the verdict has
/// the number of related pairs, and whether the start pair is related.
///
/// Takes the text in pieces of at most 4,096 bytes, and judges it line by line. Takes no piece
/// after the one in which the first line at fault ends. Allocates one word for each row of pairs at
/// the start, and no other memory. Fails with `Fault` only if the source's count of faults rose; no
/// line read whole is then at fault. Fails with `TooLong` exactly if the source gave more than
/// 268,435,456 bytes, and no line that ends within them is at fault. Fails with `Memory` only when
/// out of memory; nothing was then taken from the source.
///
/// If the contract of the source doesn't state its bytes, the clauses are about some bytes that the
/// source could have had.
pub fn check<J: Rules, S: Source, L: Ledger>(
    alloc: Global,
    joint: &J,
    start: u32,
    source: &mut S,
    steps: &mut Steps<L>,
) -> Result<Verdict, CheckError>
    requires { start < length (J.arena joint.now).nodes }

    // The verdict is the one that the format gives on all bytes of the source.
    ensures verdict { IfOk result (λ verdict. HaveVerdict (J.arena joint.now) start (S.rest source.old)
        (verdict_of verdict)) }
    ensures too_long { IsErrOf result CheckError.TooLong → HaveVerdict (J.arena joint.now) start
        (S.rest source.old) TooLong }
    ensures whole { IfOk result (λ verdict. SaysGreatest verdict → IsAtEnd (S.rest source.new)) }

    // The error is `Fault` only if the source failed, and no whole line before that is at fault.
    ensures fault { IsErrOf result CheckError.Fault → Rose (S.faults source.old) (S.faults source.new) }
    ensures none_at_fault { IsErrOf result CheckError.Fault →
        NoneAtFault (J.arena joint.now) (S.rest source.old) (S.rest source.new) }
    ensures counts { result ≢ Err CheckError.Fault → S.faults source.new ≡ S.faults source.old }

    ensures taken { GaveAtMost (MAX_CERTIFICATE_BYTES + PIECE_BYTES) (S.rest source.old) (S.rest source.new) }
    ensures untaken { IsErrOf result CheckError.Memory → source.new ≡ source.old }
    ensures borrowed { S.borrowed source.new ≡ S.borrowed source.old }
    ensures texts { S.texts source.new ≡ S.texts source.old }
{
    let mut reader = Reader::build(alloc, joint)?;
    read(&mut reader, joint, start, source, steps)
}
