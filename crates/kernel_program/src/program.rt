//! The whole program of a language: what its command words order.

ghost use Rattle.std.specs.Prelude.{◌≡◌, ◌++◌, ◌⊎◌, [], ◌∷◌, Ok, IfOk, IfErr, map, string_bytes};
ghost use Rattle.std.specs.Io.KnownBytes.{Appends};
ghost use Rattle.std.specs.declared.io.ErrorKind.TheVariants.{InvalidData};
ghost use Rattle.kernel_program.specs.Program.{DoesOrder, ProgramEnds, EndsPrint, EndsReplay, IsReplay, PrintsNothing};
ghost use Rattle.kernel_program.specs.Program.{IfEnded, IsUnbegun};
ghost use Rattle.kernel_program.specs.Program.{Obeys, OrdersReplay, OrdersServe, RefusesInput, RefusesToBegin};
ghost use Rattle.kernel_program.specs.Program.{RefusesWords};
ghost use Rattle.kernel_program.specs.Status.{begin_status, status_code};
ghost use Rattle.kernel_words.specs.Words.{IsOrdered, IsRefusedBy};

use crate::language::{BeginFault, Language};
use crate::reason::Reason;
use crate::replay::replay;
use crate::serving::serve;
use crate::status::{Status, tell_status};
use interp_core::Interpreter;
use kernel_replay::write_out;
use kernel_serve::Until;
use kernel_words::{HelpText, Order, WordsFault, read_words};
use listed::Text;
use std::alloc::Global;
use std::fs::Files;
use std::io::{self, ErrorKind, Read, Write};
use std::net::{Net, TcpListener, TcpStream};
use std::random::RandomSource;
use std::sync::Wait;
use std::thread::Threads;
use std::time::Clock;

/// Does what the words after the name of a language's program order: replays what the reader has, serves a connection
/// file, prints the kernelspec or help to the writer. A kernel runs until it is asked for its end, or as `until` says.
/// What a person is to know goes to `faults`; what can't be written there is lost. The result is the exit status.
pub fn run<L, E, R: Read, W: Write, F: Write>(
    rt: &E,
    alloc: Global,
    language: &L,
    words: &io::Result<Vec<String>>,
    until: Until,
    reader: &mut R,
    writer: &mut W,
    faults: &mut F,
) -> u8
where
    L: Language,
    <L::Interp as Interpreter>::Cell: Drop + Send + 'static,
    E: Files
        + Alloc
        + Net<Listener = TcpListener, Stream = TcpStream>
        + Threads
        + Wait
        + Clock
        + RandomSource
        + Copy
        + Send
        + Sync
        + Drop
        + 'static,
    // 0: what the words order was done.
    ensures done { result ≡ 0 → DoesOrder L.Interp.meaning (L.profile language.now) words.now (R.remaining reader.old)
        (R.remaining reader.new) (W.contents writer.old) (W.contents writer.new) }

    // 2: the words are refused, and nothing was printed.
    ensures words { result ≡ 2 → RefusesWords (L.profile language.now).name words.now × (writer.new ≡ writer.old) }

    // 3: the words order that a file be served, and nothing was printed.
    ensures file { result ≡ 3 → OrdersServe (L.profile language.now).name words.now × (writer.new ≡ writer.old) }

    // 4: the words order that a file be served, and nothing was printed: a port can't be bound.
    ensures port { result ≡ 4 → OrdersServe (L.profile language.now).name words.now × (writer.new ≡ writer.old) }

    // Words that order no replay leave the reader as it is.
    ensures reader { OrdersReplay (L.profile language.now).name words.now ⊎ (reader.new ≡ reader.old) }

    // 6: the words order a replay, whose input is refused, and nothing was printed.
    ensures input { result ≡ 6 → RefusesInput (L.profile language.now).name words.now (R.remaining reader.old)
        × (writer.new ≡ writer.old) }

    // 7: the words order a replay or that a file be served, and nothing was taken from the reader or printed: the
    // language refuses to begin.
    ensures begin { result ≡ 7 → RefusesToBegin (L.profile language.now) words.now × (reader.new ≡ reader.old)
        × (writer.new ≡ writer.old) }

    // And never 5: a kernel that ends has taken all that was published.
    ensures status { (result ≡ 0) ⊎ ((result ≡ 1) ⊎ ((result ≡ 2) ⊎ ((result ≡ 3) ⊎ ((result ≡ 4)
        ⊎ ((result ≡ 6) ⊎ (result ≡ 7)))))) }
{
    let status = carry_out(rt, alloc, language, words, until, reader, writer, faults);
    told(language.name(), status, faults)
}

/// Tells a person how the program of this name ended: its exit status.
fn told<F: Write>(name: &str, status: Status, faults: &mut F) -> u8
    ensures { result ≡ status_code status }
{
    let code = status.code();
    // If even this fails there is nobody left to tell.
    let _ = tell_status(faults, name, &status);
    drop(status);
    code
}

/// Does what the words order: how the program ends.
fn carry_out<L, E, R: Read, W: Write, F: Write>(
    rt: &E,
    alloc: Global,
    language: &L,
    words: &io::Result<Vec<String>>,
    until: Until,
    reader: &mut R,
    writer: &mut W,
    faults: &mut F,
) -> Status
where
    L: Language,
    <L::Interp as Interpreter>::Cell: Drop + Send + 'static,
    E: Files
        + Alloc
        + Net<Listener = TcpListener, Stream = TcpStream>
        + Threads
        + Wait
        + Clock
        + RandomSource
        + Copy
        + Send
        + Sync
        + Drop
        + 'static,
    ensures ends { ProgramEnds L.Interp.meaning (L.profile language.now) words.now (R.remaining reader.old)
        (R.remaining reader.new) (W.contents writer.old) (W.contents writer.new) result }
    ensures silent { PrintsNothing result → writer.new ≡ writer.old }
    ensures unread { IsUnbegun result → reader.new ≡ reader.old }
    ensures reader { OrdersReplay (L.profile language.now).name words.now ⊎ (reader.new ≡ reader.old) }
    ensures until { IfEnded result (λ served. served.until.value ≡ until) }
{
    match words {
        Ok(words) => run_words(rt, alloc, language, words, until, reader, writer, faults),
        Err(error) => unreadable(error.kind()),
    }
}

/// How the program ends whose command words couldn't be read.
fn unreadable(kind: ErrorKind) -> Status
    ensures { ((result ≡ Status.WordsUnreadable) × (kind ≡ InvalidData)) ⊎ (result ≡ Status.Failed) }
{
    match kind {
        ErrorKind::InvalidData => Status::WordsUnreadable,
        _ => Status::Failed,
    }
}

/// Does what words order that are texts: how the program ends.
fn run_words<L, E, R: Read, W: Write, F: Write>(
    rt: &E,
    alloc: Global,
    language: &L,
    words: &Vec<String>,
    until: Until,
    reader: &mut R,
    writer: &mut W,
    faults: &mut F,
) -> Status
where
    L: Language,
    <L::Interp as Interpreter>::Cell: Drop + Send + 'static,
    E: Files
        + Alloc
        + Net<Listener = TcpListener, Stream = TcpStream>
        + Threads
        + Wait
        + Clock
        + RandomSource
        + Copy
        + Send
        + Sync
        + Drop
        + 'static,
    ensures ends { ProgramEnds L.Interp.meaning (L.profile language.now) (Ok words.now) (R.remaining reader.old)
        (R.remaining reader.new) (W.contents writer.old) (W.contents writer.new) result }
    ensures silent { PrintsNothing result → writer.new ≡ writer.old }
    ensures unread { IsUnbegun result → reader.new ≡ reader.old }
    ensures reader { OrdersReplay (L.profile language.now).name (Ok words.now) ⊎ (reader.new ≡ reader.old) }
    ensures until { IfEnded result (λ served. served.until.value ≡ until) }
{
    match words_of(alloc, language, words) {
        Ok(order) => obey(rt, alloc, language, order, until, reader, writer, faults),
        Err(WordsFault::Refused(said)) => Status::WordsRefused(said),
        Err(WordsFault::OutOfMemory) => Status::Failed,
    }
}

/// Reads the words after the name of a language's program.
///
/// # Errors
///
/// `Refused` with what is wrong with them, or `OutOfMemory`.
fn words_of<L: Language>(alloc: Global, language: &L, words: &[String]) -> Result<Order, WordsFault>
    ensures ordered { IfOk result (IsOrdered (L.profile language.now).name (map string_bytes words.now)) }
    ensures refused { IfErr result (IsRefusedBy (L.profile language.now).name (map string_bytes words.now)) }
{
    let help = HelpText {
        about: language.about(),
        example: language.example(),
    };
    read_words(alloc, language.name(), help, words)
}

/// Does what is ordered: how the program ends.
fn obey<L, E, R: Read, W: Write, F: Write>(
    rt: &E,
    alloc: Global,
    language: &L,
    order: Order,
    until: Until,
    reader: &mut R,
    writer: &mut W,
    faults: &mut F,
) -> Status
where
    L: Language,
    <L::Interp as Interpreter>::Cell: Drop + Send + 'static,
    E: Files
        + Alloc
        + Net<Listener = TcpListener, Stream = TcpStream>
        + Threads
        + Wait
        + Clock
        + RandomSource
        + Copy
        + Send
        + Sync
        + Drop
        + 'static,
    ensures obeys { Obeys L.Interp.meaning (L.profile language.now) order (R.remaining reader.old)
        (R.remaining reader.new) (W.contents writer.old) (W.contents writer.new) result }
    ensures silent { PrintsNothing result → writer.new ≡ writer.old }
    ensures unread { IsUnbegun result → reader.new ≡ reader.old }
    ensures reader { IsReplay order ⊎ (reader.new ≡ reader.old) }
    // A kernel looked after what it was to end with.
    ensures until { IfEnded result (λ served. served.until.value ≡ until) }
{
    match order {
        Order::Replay(key) => replay_begun(alloc, language, reader, writer, key),
        Order::Serve(file) => serve(rt, alloc, language, file, until, faults),
        Order::KernelSpec => print_kernelspec(writer, language),
        Order::Help(text) => print_text(writer, text),
    }
}

/// Replays one peer, with an interpreter as the language begins them: how the program ends.
fn replay_begun<L: Language, R: Read, W: Write>(
    alloc: Global,
    language: &L,
    reader: &mut R,
    writer: &mut W,
    key: Text,
) -> Status
    ensures replays { EndsReplay L.Interp.meaning (L.profile language.now) key (R.remaining reader.old)
        (R.remaining reader.new) (W.contents writer.old) (W.contents writer.new) result }
    ensures silent { PrintsNothing result → writer.new ≡ writer.old }
    ensures unread { IsUnbegun result → reader.new ≡ reader.old }
{
    match language.shell(alloc) {
        Ok(interp) => replay(
            alloc,
            interp,
            reader,
            writer,
            key.into_string().into_bytes(),
        ),
        Err(fault) => {
            drop(key);
            not_begun(fault)
        }
    }
}

/// How the program ends if the language has no interpreter to begin with.
pub(crate) fn not_begun(fault: BeginFault) -> Status
    ensures { result ≡ begin_status fault }
{
    match fault {
        BeginFault::Refused(said) => Status::BeginRefused(said),
        BeginFault::OutOfMemory => Status::Failed,
    }
}

/// Prints the kernelspec of a language: how the program ends.
fn print_kernelspec<L: Language, W: Write>(writer: &mut W, language: &L) -> Status
    ensures done { result ≡ Status.Done → Appends (W.contents writer.old) (W.contents writer.new)
        ((L.profile language.now).kernelspec ++ 10 ∷ []) }
    ensures ends { EndsPrint result }
{
    print(writer, language.kernelspec(), "\n")
}

/// Prints a text: how the program ends.
fn print_text<W: Write>(writer: &mut W, text: Text) -> Status
    ensures done { result ≡ Status.Done → Appends (W.contents writer.old) (W.contents writer.new) text }
    ensures ends { EndsPrint result }
{
    let status = print(writer, text.as_str(), "");
    drop(text);
    status
}

/// Prints a text and its end: how the program ends.
fn print<W: Write>(writer: &mut W, text: &str, end: &str) -> Status
    ensures done { result ≡ Status.Done
        → Appends (W.contents writer.old) (W.contents writer.new) (text.now ++ end.now) }
    ensures ends { EndsPrint result }
{
    let written = match write_out(writer, text.as_bytes()) {
        Ok(()) => write_out(writer, end.as_bytes()),
        Err(error) => Err(error),
    };
    match written {
        Ok(()) => Status::Done,
        Err(error) => Status::OutputFailed(Reason::of_write(error)),
    }
}
