//! The program: it calls `tessla_cli::top::tessla` with its words and the host's world.
#![tactic(auto)]

use command_words::words::Words;
use std::env;
use std::io::ErrorKind;
use std::process::ExitCode;
use tessla_cli::tell::tell_broken;
use tessla_cli::top::tessla;
use tsl_value::memory::NoMemory;
use tsl_value::text::Text;
use tsl_world::{Broken, RealWorld};

/// The words after the program's name. Where one is no text there are none, and so they are not accepted.
fn words_after(rt: &HostRuntime) -> Result<Words, NoMemory> {
    let alloc = rt.alloc();
    let mut words = Words::new(alloc);
    let found = match env::args(rt) {
        Ok(found) => found,
        Err(error) if error.kind() == ErrorKind::OutOfMemory => return Err(NoMemory),
        Err(_) => return Ok(words),
    };
    for word in found.skip(1) {
        words.push(Text::from_str(alloc, word.as_str())?)?;
    }
    Ok(words)
}

fn main(rt: HostRuntime) -> ExitCode {
    let alloc = rt.alloc();
    let words = words_after(&rt);
    let mut world = RealWorld::new(rt);
    ExitCode::from(match words {
        Ok(words) => tessla(alloc, &words, &mut world),
        Err(NoMemory) => tell_broken(&mut world, Broken::Memory),
    })
}
