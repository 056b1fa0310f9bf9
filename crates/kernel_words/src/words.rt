//! The command words, read by `clap`.

ghost use Rattle.std.specs.Prelude.{◌≡◌, ◌+◌, ◌⊎◌, false, [], Some, None, IfOk, IfErr, map, position, unwrap_or};
ghost use Rattle.std.specs.Prelude.{string_bytes, take};
ghost use Rattle.clap.specs.Words.{app_of, first_of, found_of, kind_of, rows_of, subcommand_rows_of, with_subcommand};
ghost use Rattle.clap.specs.declared.builder.command.Command.TheViews.{out-Command as fields_of};
ghost use Rattle.kernel_words.specs.Words.{IsOrdered, IsRefusedBy, TellsHelp, TellsRefusal, begins_with_serve, heeded};
ghost use Rattle.kernel_words.specs.Words.{is_file_option, words_of_file};
ghost use Rattle.kernel_words.specs.declared.words.Order.TheVariants.{Replay, Serve};
ghost use Rattle.kernel_words.specs.declared.words.WordsFault.TheVariants.{OutOfMemory};
ghost use Rattle.kernel_words.specs.Words.{kernelspec_command, order_by, program_command, replay_command, serve_command};

use crate::owned::owned_text;
use clap::error::ErrorKind;
use clap::{Arg, ArgAction, ArgMatches, Command, Error};
use listed::Text;
use std::alloc::{AllocError, Global};

/// What a person orders.
#[derive(Drop)]
pub enum Order {
    /// To replay one peer under this key.
    Replay(Text),
    /// To serve the connections of this file.
    Serve(Text),
    /// To print the kernelspec.
    KernelSpec,
    /// To print this text: help, or the program's version.
    Help(Text),
}

/// Why command words are none.
#[derive(Drop)]
pub enum WordsFault {
    /// They are refused, for what this text tells a person.
    Refused(Text),
    /// There was no memory.
    OutOfMemory,
}

impl From<AllocError> for WordsFault {
    ghost from_gives = { λ _ fault. fault ≡ OutOfMemory };

    fn from(_refused: AllocError) -> WordsFault {
        WordsFault::OutOfMemory
    }
}

/// What a program says of itself in its help.
#[derive(Clone, Copy, Debug)]
pub struct HelpText {
    /// What it is.
    pub about: &'static str,
    /// A run that a person can try.
    pub example: &'static str,
}

/// Reads the command words of the program of this name.
///
/// # Errors
///
/// `Refused` with what is wrong with them, or `OutOfMemory`.
pub fn read_words(
    alloc: Global,
    name: &'static str,
    help: HelpText,
    words: &[String],
) -> Result<Order, WordsFault>
    ensures ordered { IfOk result (IsOrdered name.now (map string_bytes words.now)) }
    ensures refused { IfErr result (IsRefusedBy name.now (map string_bytes words.now)) }
{
    match program(alloc, name, help)?.try_get_matches_from(heeded(words)) {
        Ok(matches) => {
            let order = order_in(alloc, &matches);
            drop(matches);
            order
        }
        Err(error) => {
            let order = told(alloc, &error);
            drop(error);
            order
        }
    }
}

/// What is ordered by words that are fine.
fn order_in(alloc: Global, matches: &ArgMatches<'_>) -> Result<Order, WordsFault>
    ensures ordered { IfOk result (λ order. order_by (subcommand_rows_of matches.now) ≡ Some order) }
    ensures none { IfErr result (λ fault. (fault ≡ OutOfMemory) ⊎ (order_by (subcommand_rows_of matches.now) ≡ None)) }
{
    match matches.subcommand() {
        None => replay_under(alloc, ""),
        Some(("replay", found)) => {
            let key = value_of(found, "key");
            replay_under(alloc, key)
        }
        Some(("serve", found)) => {
            let file = value_of(found, "file");
            serve_of(alloc, file)
        }
        Some(("kernelspec", _)) => Ok(Order::KernelSpec),
        Some((name, _)) => refused(alloc, name),
    }
}

/// The order to replay under this key.
fn replay_under(alloc: Global, key: &str) -> Result<Order, WordsFault>
    ensures ordered { IfOk result (λ order. order ≡ Replay key.now) }
    ensures memory { IfErr result (λ fault. fault ≡ OutOfMemory) }
{
    match owned_text(alloc, key) {
        Ok(key) => Ok(Order::Replay(key)),
        Err(AllocError) => Err(WordsFault::OutOfMemory),
    }
}

/// The order to serve the connections of this file.
fn serve_of(alloc: Global, file: &str) -> Result<Order, WordsFault>
    ensures ordered { IfOk result (λ order. order ≡ Serve file.now) }
    ensures memory { IfErr result (λ fault. fault ≡ OutOfMemory) }
{
    match owned_text(alloc, file) {
        Ok(file) => Ok(Order::Serve(file)),
        Err(AllocError) => Err(WordsFault::OutOfMemory),
    }
}

/// The refusal of words that name no command, for which the name is told.
fn refused(alloc: Global, name: &str) -> Result<Order, WordsFault>
    ensures { IfOk result (λ _. ⊥) }
{
    match owned_text(alloc, name) {
        Ok(name) => Err(WordsFault::Refused(name)),
        Err(AllocError) => Err(WordsFault::OutOfMemory),
    }
}

/// The value of an option, empty if there is none.
fn value_of<'a>(options: &ArgMatches<'a>, id: &str) -> &'a str
    ensures { result.now ≡ unwrap_or (first_of id.now (rows_of (found_of options.now))) [] }
{
    match options.get_str(id) {
        Some(value) => value,
        None => "",
    }
}

/// The command of a program of this name.
fn program<'a>(alloc: Global, name: &'static str, help: HelpText) -> Result<Command<'a>, AllocError>
    ensures { IfOk result (λ command. app_of command ≡ program_command name.now) }
{
    let command = Command::new(alloc, name)
        .no_binary_name(true)
        .version("1.0")
        .about(help.about)
        .after_help(help.example);
    let named = command.bin_name(name)?;
    let replaying = with_replay(alloc, named)?;
    let serving = with_serve(alloc, replaying)?;
    serving.subcommand(kernelspec(alloc))
}

/// A command with `replay`.
fn with_replay<'a>(alloc: Global, command: Command<'a>) -> Result<Command<'a>, AllocError>
    ensures { IfOk result (λ added. app_of added ≡ with_subcommand (app_of command.entry) replay_command.top) }
{
    match replay(alloc) {
        Ok(replay) => command.subcommand(replay),
        Err(AllocError) => {
            drop(command);
            Err(AllocError)
        }
    }
}

/// A command with `serve`.
fn with_serve<'a>(alloc: Global, command: Command<'a>) -> Result<Command<'a>, AllocError>
    ensures { IfOk result (λ added. app_of added ≡ with_subcommand (app_of command.entry) serve_command.top) }
{
    match serve(alloc) {
        Ok(serve) => command.subcommand(serve),
        Err(AllocError) => {
            drop(command);
            Err(AllocError)
        }
    }
}

/// The command `replay`.
fn replay<'a>(alloc: Global) -> Result<Command<'a>, AllocError>
    ensures { IfOk result (λ command. (app_of command ≡ replay_command)
        × ((fields_of command).has_globals ≡ false)) }
{
    let key = Arg::new(alloc, "key")
        .long("key")
        .value_name("KEY")
        .action(ArgAction::Set)
        .help("The key that messages are signed with; without it nothing is signed");
    Command::new(alloc, "replay")
        .about("Replays a peer of the shell channel, read as hexadecimal text (the default)")
        .arg(key)
}

/// The command `serve`.
fn serve<'a>(alloc: Global) -> Result<Command<'a>, AllocError>
    ensures { IfOk result (λ command. (app_of command ≡ serve_command)
        × ((fields_of command).has_globals ≡ false)) }
{
    let file = Arg::new(alloc, "file")
        .short('f')
        .value_name("FILE")
        .required(true)
        .action(ArgAction::Set)
        .help("The connection file of a Jupyter server; words behind it are ignored");
    Command::new(alloc, "serve")
        .about("Runs a kernel on the ports of a connection file until a client ends it")
        .arg(file)
}

/// The command `kernelspec`.
fn kernelspec<'a>(alloc: Global) -> Command<'a>
    ensures { (app_of result ≡ kernelspec_command) × ((fields_of result).has_globals ≡ false) }
{
    Command::new(alloc, "kernelspec").about(
        "Prints the kernelspec, by which Jupyter starts a kernel",
    )
}

/// The words that are heeded: of a `serve`, none after FILE.
fn heeded(words: &[String]) -> &[String]
    ensures { map string_bytes result.now ≡ heeded (map string_bytes words.now) }
{
    if !begins_with_serve(words) {
        return words;
    }
    match file_option(words) {
        Some(at) => up_to(words, at, words_of_file(words, at)),
        None => words,
    }
}

/// The words up to a place, and so many from there on.
fn up_to(words: &[String], at: usize, count: usize) -> &[String]
    ensures { result.now ≡ take (at + count) words.now }
{
    if at < words.len() && count < words.len() - at {
        &words[..at + count]
    } else {
        words
    }
}

/// Whether the first word is `serve`.
fn begins_with_serve(words: &[String]) -> bool
    ensures { result ≡ begins_with_serve (map string_bytes words.now) }
{
    match words.first() {
        Some(word) => word.as_str() == "serve",
        None => false,
    }
}

/// The place of the first option `-f`, with FILE in the same word or after it.
fn file_option(words: &[String]) -> Option<usize>
    ensures { result ≡ position (λ word. is_file_option (string_bytes word)) words.now }
{
    words
        .iter()
        .position(|word| word.as_bytes().starts_with(b"-f"))
}

/// How many words the option `-f` at this place takes with FILE.
fn words_of_file(words: &[String], at: usize) -> usize
    ensures { result ≡ words_of_file (map string_bytes words.now) at }
{
    match words.get(at) {
        Some(word) if word.as_str() == "-f" => 2,
        Some(_) | None => 1,
    }
}

/// What is told if `clap` gave no matches: help and the version are what was ordered.
fn told(alloc: Global, error: &Error) -> Result<Order, WordsFault>
    ensures help { IfOk result (TellsHelp (kind_of error.now)) }
    ensures refusal { IfErr result (TellsRefusal (kind_of error.now)) }
{
    let said = error.to_string(alloc)?;
    match error.kind() {
        ErrorKind::OutOfMemory => Err(WordsFault::OutOfMemory),
        ErrorKind::DisplayHelp | ErrorKind::DisplayVersion => Ok(Order::Help(Text::new(said))),
        _ => Err(WordsFault::Refused(Text::new(said))),
    }
}
