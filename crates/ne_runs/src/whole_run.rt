//! A run: from the word of a mode and the bytes that are read to the text that is written.
ghost use Rattle.std.specs.Prelude.{◌≡◌, ◌≢◌, ℕ, ◌+◌, ◌⊎◌, ◌↔◌, List, [], ◌∷◌, length, map, true};
ghost use Rattle.std.specs.Prelude.{false, None, IfOk, IfErr, OnOk, OnErr, IfSome, IsErr, IsTrue};
ghost use Rattle.std.specs.Prelude.{IsErrOf, MatchResult, string_bytes};
ghost use Rattle.std.specs.Io.KnownBytes.{Consumes, IsAtEnd};
ghost use Rattle.ne_runs.specs.Modes.{mode_of};
ghost use Rattle.ne_runs.specs.ProgramRuns.{Completes, TakesPart};

use crate::device::{Sink, Source};
use crate::fault::Fault;
use crate::lines::numbers;
use crate::mode::Mode;
use nonempty_collections::NEVec;
use std::alloc::Global;

/// The greatest number of bytes that a run accepts.
pub const LIMIT: usize = 1_048_576;

// How many bytes are asked for at a time, at most.
const CHUNK: usize = 16_384;

/// Returns the word if there is exactly one, or `Usage` otherwise. It does not allocate.
pub fn one_word(words: &[String]) -> Result<&str, Fault>
    ensures { MatchResult result
        (λ word. map string_bytes words.now ≡ word.now ∷ [])
        (λ fault. (fault ≡ Fault.Usage) × (length words.now ≢ 1)) }
{
    match words {
        [word] => Ok(word.as_str()),
        _ => Err(Fault::Usage),
    }
}

// Reads to the end, or until there is one byte more than a run accepts.
fn read_all<R: Source>(alloc: Global, reader: &mut R) -> Result<Vec<u8>, Fault>
    requires { R.has_failed reader.old ≡ false }
    ensures read { IsErrOf result Fault.Read ↔ IsTrue (R.has_failed reader.new) }
    ensures faults { IfErr result (λ fault. (fault ≡ Fault.Read) ⊎ (fault ≡ Fault.Memory)) }
    ensures bytes { IfOk result (λ input. Consumes (R.left reader.old) (R.left reader.new)
        input.items) }
    ensures whole { IfOk result (λ input. IsAtEnd (R.left reader.new)
        ⊎ (length input.items ≡ LIMIT + 1)) }
{
    let mut input = Vec::new(alloc);
    let mut chunk = [0u8; CHUNK];
    while input.len() <= LIMIT {
        let room = CHUNK.min(LIMIT + 1 - input.len());
        match reader.read(&mut chunk[..room]) {
            Ok(0) => break,
            Ok(count) => input.extend_from_slice(&chunk[..count])?,
            Err(()) => return Err(Fault::Read),
        }
    }
    Ok(input)
}

// Writes a whole text, and flushes the writer.
fn write_all<W: Sink>(writer: &mut W, text: &[u8]) -> Result<(), Fault>
    requires { W.has_failed writer.old ≡ false }
    ensures written { OnOk result (TakesPart text.now [] (W.taken writer.old)
        (W.taken writer.new)) }
    ensures part { OnErr result ((rest : List ℕ)
        × TakesPart text.now rest (W.taken writer.old) (W.taken writer.new)) }
    ensures fault { IfErr result (λ fault. fault ≡ Fault.Write) }
    ensures flushed { OnOk result (W.is_flushed writer.new ≡ true) }
    ensures failed { IsErr result ↔ IsTrue (W.has_failed writer.new) }
{
    let mut rest = text;
    while !rest.is_empty() {
        match writer.write(rest) {
            Ok(count) => rest = &rest[count..],
            Err(()) => return Err(Fault::Write),
        }
    }
    writer.flush().map_err(|()| Fault::Write)
}

/// Reads numbers, one per line, and writes what the mode that `mode` names makes of them.
///
/// No call on the reader or the writer may have failed before. The whole text is built before the
/// first write, and at most one byte beyond the limit is read. If there are several faults, `Usage`
/// is returned before all others. For an input, `TooLong` comes before `BadLine`, and `BadLine`
/// before `Empty`.
pub fn run<R: Source, W: Sink>(
    alloc: Global,
    mode: &str,
    reader: &mut R,
    writer: &mut W,
) -> Result<(), Fault>
    requires reader { R.has_failed reader.old ≡ false }
    requires writer { W.has_failed writer.old ≡ false }
    // A word that names no mode is refused, and nothing is read.
    ensures usage { IsErrOf result Fault.Usage ↔ (mode_of mode.now ≡ None) }
    ensures unread { IsErrOf result Fault.Usage → reader.new ≡ reader.old }

    // `Read` is returned if and only if a read failed, and `Write` if and only if a write or the
    // flush failed.
    ensures read { IsErrOf result Fault.Read ↔ IsTrue (R.has_failed reader.new) }
    ensures write { IsErrOf result Fault.Write ↔ IsTrue (W.has_failed writer.new) }

    // After any fault but `Write`, nothing was written. After a run without a fault, the writer is
    // flushed.
    ensures unwritten { IfErr result (λ fault. fault ≢ Fault.Write → writer.new ≡ writer.old) }
    ensures flushed { OnOk result (W.is_flushed writer.new ≡ true) }

    // If a mode is named and no read and no allocation failed, the run ends as the bytes that it
    // read require.
    ensures completes { IfSome (mode_of mode.now)
        (λ m. IsErrOf result Fault.Read ⊎ IsErrOf result Fault.Memory
        ⊎ Completes m (R.left reader.old) (R.left reader.new) (W.taken writer.old)
        (W.taken writer.new) result) }
{
    let mode = Mode::named(mode).ok_or(Fault::Usage)?;
    let input = read_all(alloc, reader)?;
    if input.len() > LIMIT {
        return Err(Fault::TooLong);
    }
    let numbers = numbers(alloc, input.as_slice())?;
    // only the numbers are needed from here on
    drop(input);
    let numbers = NEVec::try_from_vec(numbers).ok_or(Fault::Empty)?;
    let text = mode.text(alloc, &numbers)?;
    write_all(writer, text.as_bytes())
}
