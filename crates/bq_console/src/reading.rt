//! What commands read whole: a file, or standard input.
ghost use Rattle.std.specs.Prelude.{◌≡◌, IfErr, List, option_map, ℕ};
ghost use Rattle.std.specs.Borrow.{Bor};
ghost use Rattle.bq_console.specs.Files.{file_named, input_name};
ghost use Rattle.bq_console.specs.Status.{EndsFailed};

use crate::bounded::Bounded;
use crate::printable::NO_TEXT;
use crate::reporting::report_unread;
use std::fs::File;
use std::io::{Error, ErrorKind, IsTerminal, Read, Stdin};
use std::process::ExitCode;
use std::{fs, io};

/// What is said of a name that is no UTF-8 text.
const NO_TEXT_NAME: &str = "the name is no UTF-8 text, so it can't be opened";

/// The file that is named; None if it is `-`, which means standard input.
pub fn file_named(file: &Option<String>) -> Option<&str>
    ensures { option_map (λ (f : Bor (List ℕ)). f.now) result ≡ file_named file.now }
{
    match file {
        Some(path) if path.as_str() != "-" => Some(path.as_str()),
        _ => None,
    }
}

/// What messages about its contents call the file that is named.
pub fn name_of(file: &Option<String>) -> &str
    ensures { result.now ≡ input_name file.now }
{
    match file_named(file) {
        Some(path) => path,
        None => "standard input",
    }
}

/// The most bytes of a file that is read whole, unless `--max-bytes` says another number.
pub const MOST_BYTES: u64 = 1 << 24;

/// All bytes of the file that is named, or of standard input, of at most this many. If they can't be read, standard
/// error says why, and the error is the exit status.
pub fn whole_input(rt: &HostRuntime, file: &Option<String>, most: u64) -> Result<Vec<u8>, ExitCode>
    ensures { IfErr result EndsFailed }
{
    let name = file_named(file);
    match read_input(rt, name, most) {
        Ok(bytes) => Ok(bytes),
        Err(error) => Err(report_unread(rt, name, &error)),
    }
}

/// All bytes of the file of that name, or of standard input if no name is given, of at most this many.
pub fn read_input(rt: &HostRuntime, name: Option<&str>, most: u64) -> io::Result<Vec<u8>> {
    let mut bytes = Vec::new(rt.alloc());
    match name {
        Some(path) => {
            Bounded::new(opened(rt, path)?, Some(most)).read_to_end(&mut bytes)?;
        }
        None => {
            Bounded::new(waiting_input(rt), Some(most)).read_to_end(&mut bytes)?;
        }
    }
    Ok(bytes)
}

/// The file of that name, to be read. A name that is no UTF-8 text names none.
pub fn opened(rt: &HostRuntime, path: &str) -> io::Result<File> {
    if path.contains(NO_TEXT) {
        return Err(Error::new(ErrorKind::InvalidFilename, NO_TEXT_NAME));
    }
    fs::open(rt, path)
}

/// Standard input. If it is a terminal, standard error says that the program waits.
pub fn waiting_input(rt: &HostRuntime) -> Stdin {
    let input = rt.stdin();
    if input.is_terminal() {
        let _ = rt.eprintln("bqsim: waiting for standard input; Ctrl-D ends it");
    }
    input
}
