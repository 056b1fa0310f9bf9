//! A replay, printed: its lines, or the status by which the program says why there are none.

ghost use Rattle.std.specs.Prelude.{◌≡◌, ◌⊎◌, None, IfSome};
ghost use Rattle.kernel_replay.specs.Lines.{hex_octets};
ghost use Rattle.kernel_replay.specs.Replay.{IsNotHex, IsReplayed};
ghost use Rattle.kernel_program.specs.Program.{PrintsNothing};
ghost use Rattle.kernel_program.specs.Replay.{EndsAnswer, Replays};
ghost use Rattle.kernel_program.specs.Status.{unread_status};

use crate::reason::Reason;
use crate::status::Status;
use interp_core::Interpreter;
use kernel_replay::{HexFault, answer_octets, read_hex, write_out};
use std::alloc::Global;
use std::io::{Read, Write};

/// Replays one peer of the shell channel. It reads hexadecimal text to its end, without regard to white space: the
/// octets that the peer sends. It answers them with this interpreter and under the key.
///
/// Then it prints three lines. The first is `shell ` and the octets that were written to the peer. The second is `iopub
/// ` and the texts of the messages that were published. The third is `end ` and how the session ended.
///
/// The status is 0 if they are printed. It is 6 if the text is no even number of digits, and nothing is printed. It is
/// 1 if memory was refused or a read or write failed.
pub fn run_replay<I: Interpreter + Drop, R: Read, W: Write>(
    alloc: Global,
    interp: I,
    reader: &mut R,
    writer: &mut W,
    key: Vec<u8>,
) -> u8
    // 0: what was printed is the lines of all that the reader held.
    ensures done { result ≡ 0 → IsReplayed I.meaning interp key.items (R.remaining reader.old)
        (R.remaining reader.new) (W.contents writer.old) (W.contents writer.new) }

    // 6: the input has no lines, and nothing was printed.
    ensures refused { result ≡ 6 → IsNotHex (R.remaining reader.old) × (writer.new ≡ writer.old) }

    // An input without lines is refused, memory and reads aside.
    ensures no_lines { IfSome (R.remaining reader.old)
        (λ input. hex_octets input ≡ None → (result ≡ 6) ⊎ (result ≡ 1)) }

    ensures status { (result ≡ 0) ⊎ ((result ≡ 1) ⊎ (result ≡ 6)) }
{
    let status = replay(alloc, interp, reader, writer, key);
    let code = status.code();
    drop(status);
    code
}

/// Reads, answers and prints: how the program ends.
pub(crate) fn replay<I: Interpreter + Drop, R: Read, W: Write>(
    alloc: Global,
    interp: I,
    reader: &mut R,
    writer: &mut W,
    key: Vec<u8>,
) -> Status
    ensures replays { Replays I.meaning interp key.items (R.remaining reader.old) (R.remaining reader.new)
        (W.contents writer.old) (W.contents writer.new) result }
    ensures same { PrintsNothing result → writer.new ≡ writer.old }
{
    match read_hex(alloc, reader) {
        Ok(octets) => print_answer(alloc, interp, &octets, writer, key),
        Err(refusal) => {
            drop(interp);
            drop(key);
            unread(refusal.fault, refusal.place)
        }
    }
}

/// How the program ends without the octets of a replay, whose text breaks off at this place.
fn unread(fault: HexFault, place: Option<usize>) -> Status
    ensures { result ≡ unread_status fault place }
{
    match fault {
        HexFault::NotHex => Status::InputRefused(place),
        HexFault::Failed => Status::Failed,
    }
}

/// Answers these octets, and prints the lines of the session: how the program ends.
fn print_answer<I: Interpreter + Drop, W: Write>(
    alloc: Global,
    interp: I,
    octets: &[u8],
    writer: &mut W,
    key: Vec<u8>,
) -> Status
    ensures { EndsAnswer I.meaning interp key.items octets.now (W.contents writer.old) (W.contents writer.new) result }
{
    match answer_octets(alloc, interp, key, octets) {
        Ok(text) => match write_out(writer, &text) {
            Ok(()) => Status::Done,
            Err(error) => Status::OutputFailed(Reason::of_write(error)),
        },
        Err(fault) => {
            drop(fault);
            Status::Failed
        }
    }
}
