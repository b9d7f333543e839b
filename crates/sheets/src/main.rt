//! The program: the words, the input, the outputs, the files and the sockets of the system, handed to `sheets_main`.
#![tactic(auto)]

use sheets_cli::{FileFolder, Input, Output, TcpDoors, sheets_main};
use std::process::ExitCode;
use std::{env, io};

fn main(rt: HostRuntime) -> ExitCode {
    let words = match words(&rt) {
        Ok(words) => words,
        Err(error) if error.kind() == io::ErrorKind::OutOfMemory => {
            let _ = rt.eprintln("no memory");
            return ExitCode::from(3);
        }
        // A word that isn't text makes a faulty command line, as no words do.
        Err(_) => Vec::new(rt.alloc()),
    };
    let stdout = rt.stdout();
    let stderr = rt.stderr();
    let mut input = Input::new(rt.reader());
    let mut output = Output::output(io::writer(&stdout));
    let mut faults = Output::faults(io::writer(&stderr));
    let mut folder = FileFolder::new(&rt);
    let mut doors = TcpDoors::new(&rt);
    let status = sheets_main(
        &rt,
        words.as_slice(),
        &mut input,
        &mut output,
        &mut faults,
        &mut folder,
        &mut doors,
    );
    ExitCode::from(status)
}

/// The words behind the program's name.
fn words(rt: &HostRuntime) -> io::Result<Vec<String>> {
    let mut words = Vec::new(rt.alloc());
    for word in env::args(rt)?.skip(1) {
        words.push(word)?;
    }
    Ok(words)
}
